//! A graph that is a list of arrows.
ghost use Rattle.std.specs.Prelude.{◌≤◌, length};
ghost use Rattle.graph.specs.Reach.{Least};
ghost use Rattle.graph_examples.specs.Arrows.{Listed, Drawn};

use graph::reach::Graph;

/// The points 1 to `points`, with the arrows (from, to) that are listed, in any order and any number of times.
///
/// An arrow that does not lie between points is passed over.
#[derive(Clone, Copy)]
pub struct ArrowList<'a> {
    pub points: usize,
    pub arrows: &'a [(u16, u16)],
}

/// The least point above `after`, and up to `points`, that a listed arrow from `from` goes to.
fn least_listed(arrows: &[(u16, u16)], points: usize, from: usize, after: usize) -> Option<usize>
    ensures { Least (λ k. Listed arrows.now (length arrows.now) from k × (k ≤ points)) after result }
{
    arrows
        .iter()
        .filter(|&&(x, y)| x as usize == from && after < y as usize && y as usize <= points)
        .map(|&(_, y)| y as usize)
        .min()
}

impl Graph for ArrowList<'_> {
    ghost points = { λ l. l.points };

    ghost arrow = { λ l. Drawn l.points l.arrows.now };

    ghost inside = { λ l j k h. (h.1, h.2) };

    fn size(&self) -> usize {
        self.points
    }

    fn next_target(&self, from: usize, after: usize) -> Option<usize> {
        // two comparisons: with the range's `contains` the check leaves its goals open
        if from == 0 || from > self.points {
            return None;
        }
        least_listed(self.arrows, self.points, from, after)
    }
}
