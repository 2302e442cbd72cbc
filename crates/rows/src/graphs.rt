// The rows of a table as the points of graphs, with some of its arrows.
ghost use Rattle.std.specs.Prelude.{◌≡◌, ℕ, Bool, true};
ghost use Rattle.graph.specs.Held.{held};
ghost use Rattle.graph.specs.Reach.{Least, Start, Explored};
ghost use Rattle.graph.specs.Scratch.{roomy_in};
ghost use Rattle.model.specs.Rollback.{uncut};
ghost use Rattle.model.specs.Rows.{Rows};
ghost use Rattle.model.specs.Search.{has};
ghost use Rattle.rows.specs.Arrows.{Drawn, forth, back};
ghost use Rattle.rows.specs.Marking.{Walked};
ghost use Rattle.rows.specs.Steps.{steps_only};
ghost use Rattle.rows.specs.Tables.{rows_of};

use crate::table::RowTable;
use graph::reach::{Graph, NoRoom, reach};
use graph::scratch::Scratch;
use process::parts::Step;

/// Arrows between the rows of a table, in either direction.
pub(crate) trait Arrows: Drop {
    ghost leads: { Self → Rows → ℕ → ℕ → Bool };

    /// The least row above `after` that an arrow leads to from `from`.
    fn next(&self, table: &RowTable, from: u16, after: u16) -> Option<u16>
        ensures { Least (Drawn (rows_of table.now).count (leads self.now (rows_of table.now)) from)
            after result };
}

/// The rows of a table as the points of a graph.
#[derive(Drop)]
struct RowGraph<'a, A> {
    table: &'a RowTable,
    arrows: A,
}

impl<A: Arrows> Graph for RowGraph<'_, A> {
    ghost points = { λ g. (rows_of g.table.now).count };

    ghost arrow = { λ g. Drawn (rows_of g.table.now).count (A.leads g.arrows (rows_of g.table.now)) };

    ghost inside = { λ g j k a. (a.from_row, a.to_row) };

    fn size(&self) -> usize {
        self.table.len() as usize
    }

    fn next_target(&self, from: usize, after: usize) -> Option<usize> {
        let from = u16::try_from(from).ok()?;
        let after = u16::try_from(after).ok()?;
        self.arrows.next(self.table, from, after).map(usize::from)
    }
}

impl RowTable {
    /// Marks exactly the rows that are reached from `starts` along these arrows.
    pub(crate) fn walk<A: Arrows>(
        &self,
        arrows: A,
        starts: &[u16],
        scratch: &mut Scratch,
    ) -> Result<(), NoRoom>
        ensures { Walked result (roomy_in (rows_of self.now).count scratch.old)
            (λ _. Explored (Drawn (rows_of self.now).count (A.leads arrows (rows_of self.now)))
            (Start (rows_of self.now).count starts.now)
            (held scratch.old.marks.now) (held scratch.new.marks.now))
            scratch.old scratch.new }
    {
        reach(
            &RowGraph {
                table: self,
                arrows,
            },
            starts,
            scratch,
        )
    }
}

/// From each row to those that follow it.
#[derive(Drop)]
pub(crate) struct Forth;

/// From each row to its predecessors that are no savepoints.
#[derive(Drop)]
pub(crate) struct BackToSavepoints<'a> {
    pub(crate) steps: &'a [Step],
}

impl Arrows for Forth {
    ghost leads = { λ _ r. forth r.preds };

    fn next(&self, table: &RowTable, from: u16, after: u16) -> Option<u16> {
        table.next_follower(from, after)
    }
}

impl Arrows for BackToSavepoints<'_> {
    ghost leads = { λ a r. back (uncut (steps_only a.steps.now) r) };

    fn next(&self, table: &RowTable, from: u16, after: u16) -> Option<u16> {
        let steps = self.steps;
        table
            .predecessors(from)
            .iter()
            .copied()
            .filter(|&k| k > after && !table.is_savepoint(steps, k))
            .min()
    }
}
