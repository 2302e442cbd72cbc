//! A chain of points.
ghost use Rattle.graph_examples.specs.Arrows.{Next};

use graph::reach::Graph;

/// The points 1 to `points`, with an arrow from each to the next.
#[derive(Clone, Copy)]
pub struct Chain {
    pub points: usize,
}

impl Graph for Chain {
    ghost points = { λ c. c.points };

    ghost arrow = { λ c. Next c.points };

    ghost inside = { λ c j k h. (h.1, h.2) };

    fn size(&self) -> usize {
        self.points
    }

    fn next_target(&self, from: usize, after: usize) -> Option<usize> {
        // comparisons: with the range's `contains` the check leaves its goals open
        if from >= 1 && from < self.points && after <= from {
            Some(from + 1)
        } else {
            None
        }
    }
}
