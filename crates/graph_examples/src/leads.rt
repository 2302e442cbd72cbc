//! A question about any graph, asked through its traversal.
ghost use Rattle.std.specs.Prelude.{◌≡◌, length, is_ok, IfOk, MatchBool};
ghost use Rattle.graph.specs.Column.{Wiped};
ghost use Rattle.graph.specs.Reach.{roomy};
ghost use Rattle.graph_examples.specs.Ask.{Leads};

use graph::marks::Marks;
use graph::reach::{Graph, NoRoom, reach};
use graph::scratch::Scratch;

/// Whether arrows lead from the point `from` to the point `to`.
pub fn leads<G: Graph>(
    g: &G,
    from: u16,
    to: usize,
    column: &mut [u8],
    line: &mut [u16],
) -> Result<bool, NoRoom>
    ensures test { is_ok result ≡ roomy (G.Graph.points g.now)
        (length line.old) (length column.old) }
    ensures answer { IfOk result (λ b. MatchBool b
        (Leads (G.Graph.arrow g.now) (G.Graph.points g.now) from to)
        (Leads (G.Graph.arrow g.now) (G.Graph.points g.now) from to → ⊥)) }
    ensures wiped { Wiped column.old column.new }
{
    let mut marks = Marks::new(column);
    let mut scratch = Scratch {
        marks: &mut marks,
        line,
    };
    reach(g, &[from], &mut scratch)?;
    Ok(marks.is_set(to))
}
