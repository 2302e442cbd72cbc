// The last checks of a process: the arrows at each step, and that each step is reached.
ghost use Rattle.std.specs.Prelude.{◌≡◌, ◌≤◌, true};
ghost use Rattle.graph.specs.Held.{held};
ghost use Rattle.graph.specs.Scratch.{roomy_in, SameLoans};
ghost use Rattle.process.specs.Stored.{ends_at, Tail, Head, Leads};
ghost use Rattle.process.specs.Shape.{Sorted, Inside, fine_by, LowestUnfit, Shaped};

use crate::parts::Arrow;
use graph::marks::Marks;
use graph::reach::{Graph, reach};
use graph::scratch::Scratch;

/// How many arrows may lead into a step, and how many out of it.
const MOST_AT_STEP: usize = 8;

/// The steps of a process as points, with its arrows.
#[derive(Clone, Copy)]
pub(crate) struct ArrowGraph<'a> {
    pub(crate) steps: usize,
    pub(crate) arrows: &'a [Arrow],
    ghost few: { steps ≤ 64 },
    ghost sorted: { Sorted arrows.now },
    ghost inside: { Inside steps arrows.now },
}

impl Graph for ArrowGraph<'_> {
    ghost points = { λ g. g.steps };

    ghost arrow = { λ g. Leads g.arrows.now g.steps };

    ghost inside = { λ g j k l. (l.from_step, l.to_step) };

    fn size(&self) -> usize {
        self.steps
    }

    // Arrows rise: the first that comes after an arrow from `from` to `after` is the next from there, if one is.
    fn next_target(&self, from: usize, after: usize) -> Option<usize> {
        let next = self
            .arrows
            .partition_point(|a| (a.from as usize, a.to as usize) <= (from, after));
        self.arrows
            .get(next)
            .filter(|a| a.from as usize == from)
            .map(|a| a.to as usize)
    }
}

impl ArrowGraph<'_> {
    // How many arrows leave a step, and how many enter it.
    fn arrows_out(&self, step: usize) -> usize
        ensures { result ≡ ends_at Tail self.now.arrows.now step }
    {
        self.arrows
            .iter()
            .filter(|a| a.from as usize == step)
            .count()
    }

    fn arrows_in(&self, step: usize) -> usize
        ensures { result ≡ ends_at Head self.now.arrows.now step }
    {
        self.arrows.iter().filter(|a| a.to as usize == step).count()
    }

    /// Whether the step is marked, and has few arrows in and out.
    fn is_fine(&self, marks: &Marks, step: usize) -> bool
        ensures { result ≡ fine_by (held marks.now) self.now.arrows.now step }
    {
        self.arrows_out(step) <= MOST_AT_STEP
            && self.arrows_in(step) <= MOST_AT_STEP
            && marks.is_set(step)
    }

    fn lowest_unfit(&self, marks: &Marks) -> Option<usize>
        ensures { LowestUnfit (held marks.now) self.now.arrows.now self.now.steps result }
    {
        // a half-open range: of `find` over one the library says which number it is
        (1..self.steps + 1).find(|step| !self.is_fine(marks, *step))
    }

    /// The lowest step that no way leads to from step 1, or that more than 8 arrows leave, or more than 8 enter.
    pub(crate) fn unfit_step(&self, scratch: &mut Scratch) -> Option<usize>
        requires { roomy_in self.now.steps scratch.old ≡ true }
        ensures shaped { Shaped self.now.arrows.now self.now.steps result }
        ensures loans { SameLoans scratch.old scratch.new }
    {
        let _ = reach(self, &[1], scratch);
        self.lowest_unfit(scratch.marks)
    }
}
