//! Graphs, and the points of one that are reached from some of its points.
ghost use Rattle.std.specs.Prelude.{◌≡◌, ℕ, true, length, is_ok, MatchResult};
ghost use Rattle.graph.specs.Held.{held};
ghost use Rattle.graph.specs.Reach.{Within, Least, Start, Explored, roomy};
ghost use Rattle.graph.specs.Scratch.{roomy_in, SameLoans, Untouched};

use crate::marks::Marks;
use crate::queue::Queue;
use crate::scratch::Scratch;
use crate::traversal::Traversal;

/// A graph on the points 1 to `points`.
pub trait Graph {
    ghost points: { Self → ℕ };

    ghost arrow: { Self → ℕ → ℕ → Type 0 };

    ghost inside: { (g : Self) (j k : ℕ) → arrow g j k → Within (points g) j × Within (points g) k };

    /// How many points there are.
    fn size(&self) -> usize
        ensures { result ≡ points self.now };

    /// The least point above `after` that an arrow leads to from `from`.
    fn next_target(&self, from: usize, after: usize) -> Option<usize>
        ensures { Least (arrow self.now from) after result };
}

/// The graph has more points than the memory that is lent has room for.
#[derive(Drop, Debug, Clone, Copy, PartialEq)]
pub struct NoRoom;

/// Marks exactly the points that are reached, where there is room.
// The line comes as a slice: of one that is passed it is known that it keeps its length.
fn explore<G: Graph>(g: &G, starts: &[u16], points: usize, marks: &mut Marks, line: &mut [u16])
    requires points { points ≡ G.Graph.points g.now }
    requires room { true ≡ roomy points (length line.old) (length (held marks.old)) }
    ensures explored { Explored (G.Graph.arrow g.now) (Start (G.Graph.points g.now) starts.now)
        (held marks.old) (held marks.new) }
    ensures same { marks.new.column.ghost_name ≡ marks.old.column.ghost_name }
{
    marks.clear();
    let mut queue = Queue::new(line);
    let mut traversal = Traversal {
        points,
        marks,
        queue: &mut queue,
    };
    traversal.run(g, starts);
}

/// Marks the points of `starts`, every point that an arrow leads to from a marked one, and no other.
///
/// What was marked before does not matter. Numbers in `starts` that are not points of the graph are passed over.
/// The line wants a place for each point, and the column a mark for each; where one is too short, nothing changes.
pub fn reach<G: Graph>(g: &G, starts: &[u16], scratch: &mut Scratch) -> Result<(), NoRoom>
    ensures test { is_ok result ≡ roomy_in (G.Graph.points g.now) scratch.old }
    ensures explored { MatchResult result
        (λ _. Explored (G.Graph.arrow g.now) (Start (G.Graph.points g.now) starts.now)
        (held scratch.old.marks.now) (held scratch.new.marks.now))
        (λ _. Untouched scratch.old scratch.new) }
    ensures loans { SameLoans scratch.old scratch.new }
{
    let points = g.size();
    if !scratch.has_room(points) {
        return Err(NoRoom);
    }
    explore(g, starts, points, scratch.marks, scratch.line);
    Ok(())
}
