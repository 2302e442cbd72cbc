//! A traversal under way.
ghost use Rattle.std.specs.Prelude.{ℕ, ◌≡◌, ◌+◌, ◌<◌, ◌≤◌, false, [], length};
ghost use Rattle.graph.specs.Column.{mark_count, marked};
ghost use Rattle.graph.specs.Held.{held};
ghost use Rattle.graph.specs.Reach.{Start, Explored};
ghost use Rattle.graph.specs.Search.{unmarked, column_with, line_with};
ghost use Rattle.graph.specs.Waiting.{waiting, places};

use crate::marks::Marks;
use crate::queue::Queue;
use crate::reach::Graph;

/// A traversal of a graph of `points` points: those that were taken in are marked, and some of them wait.
///
/// The column has a mark for each point, and the queue a free place for each that is not marked yet.
// The queue is lent, as the marks are, so that the caller can prove what is marked in the end.
#[derive(Drop)]
pub(crate) struct Traversal<'r, 'm, 's, 'q> {
    pub(crate) points: usize,
    pub(crate) marks: &'r mut Marks<'m>,
    pub(crate) queue: &'s mut Queue<'q, u16>,
    ghost few: { points < mark_count },
    ghost wide: { points < length (held marks.now) },
    ghost room: { length (waiting queue.now) + unmarked points (held marks.now) ≤ places queue.now },
}

impl Traversal<'_, '_, '_, '_> {
    ghost use Rattle.graph.specs.Taking.{SameTraversal, TakesIn};

    /// Takes in the point `t`: marks it and has it wait, unless it is marked already.
    fn admit(&mut self, t: usize)
        requires { (1 ≤ t) × (t ≤ self.old.points) }
        ensures taken { TakesIn (λ k. k ≡ t) self.old self.new }
        ensures column { held self.new.marks.now ≡ column_with (held self.old.marks.now) t }
        ensures waiting { waiting self.new.queue.now
            ≡ line_with (held self.old.marks.now) (waiting self.old.queue.now) t }
    {
        if self.marks.is_set(t) {
            return;
        }
        self.marks.set(t);
        let _ = self.queue.push(t as u16);
    }

    /// Takes in each point that an arrow leads to from `p`.
    fn expand<G: Graph>(&mut self, g: &G, p: usize)
        requires { self.old.points ≡ G.Graph.points g.now }
        ensures { TakesIn (G.Graph.arrow g.now p) self.old self.new }
    {
        let mut after = 0;
        while let Some(t) = g.next_target(p, after) {
            self.admit(t);
            after = t;
        }
    }

    /// Takes in those of `starts` that are points of the graph.
    fn seed(&mut self, starts: &[u16])
        ensures { TakesIn (Start self.old.points starts.now) self.old self.new }
    {
        for s in starts {
            let t = *s as usize;
            // by these two comparisons the check knows that `t` is a point
            if t == 0 || t > self.points {
                continue;
            }
            self.admit(t);
        }
    }

    /// Takes in each point that is reached from `starts`, where none is taken in yet.
    pub(crate) fn run<G: Graph>(&mut self, g: &G, starts: &[u16])
        requires points { self.old.points ≡ G.Graph.points g.now }
        requires none { (k : ℕ) → marked (held self.old.marks.now) k ≡ false }
        requires empty { waiting self.old.queue.now ≡ [] }
        ensures explored { Explored (G.Graph.arrow g.now) (Start (G.Graph.points g.now) starts.now)
            (held self.old.marks.now) (held self.new.marks.now) }
        ensures same { SameTraversal self.old self.new }
    {
        self.seed(starts);
        while let Some(p) = self.queue.pop() {
            self.expand(g, p as usize);
        }
    }
}
