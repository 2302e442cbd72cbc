// The summary of a sheet.
ghost use Rattle.std.specs.Prelude.{◌≡◌, ◌+◌, IfOk};
ghost use Rattle.model.specs.Summaries.{count_in, counts_of, highest_state, standing, standings};
ghost use Rattle.model.specs.Summaries.{summary_of, TellsNothingPrivate};
ghost use Rattle.sheet.specs.SheetOf.{sheet_of, chart_of};

use super::Sheet;
use rows::step_at;
use std::alloc::{AllocError, Global};
use values::{Phase, RowState};

/// How many rows there are, and how many in each state.
#[derive(Clone, Copy, Default, Drop)]
pub struct RowCounts {
    pub all: usize,
    pub running: usize,
    pub committed: usize,
    pub dropped: usize,
    pub due: usize,
    pub undone: usize,
    pub passed_over: usize,
}

/// What is told of a sheet, which depends on no private entry.
#[derive(Drop)]
pub struct Summary {
    pub phase: Phase,
    pub rollbacks: u16,
    pub rows: RowCounts,
    /// How each step stands, from step 1 on: the state of its highest row; of a private step nothing is told.
    pub standings: Vec<Option<RowState>>,
}

impl Sheet {
    ghost use Rattle.sheet.specs.Summaries.{counts_told, summary_told};

    // How many rows are in that state.
    fn count(&self, state: RowState) -> usize
        ensures { result ≡ count_in (sheet_of self.now).rows state }
    {
        (1..self.table.len() + 1)
            .filter(|&row| self.table.is_in(state, row))
            .count()
    }

    fn row_counts(&self) -> RowCounts
        ensures { counts_told result ≡ counts_of (sheet_of self.now).rows }
    {
        RowCounts {
            all: usize::from(self.table.len()),
            running: self.count(RowState::Running),
            committed: self.count(RowState::Committed),
            dropped: self.count(RowState::Dropped),
            due: self.count(RowState::Due),
            undone: self.count(RowState::Undone),
            passed_over: self.count(RowState::PassedOver),
        }
    }

    // The state of the highest row of a step; absent where it has none.
    fn highest_state(&self, step: u16) -> RowState
        ensures { result ≡ highest_state (sheet_of self.now).rows step ((sheet_of self.now).rows.count + 1) }
    {
        let mut highest = RowState::Absent;
        for row in 0..self.table.len() + 1 {
            if self.table.step(row) == step {
                highest = self.table.state(row);
            }
        }
        highest
    }

    // How a step stands.
    fn standing(&self, step: u16) -> Option<RowState>
        ensures { result ≡ standing (chart_of self.now) (sheet_of self.now).rows step }
    {
        if step_at(self.process.steps(), step).private {
            None
        } else {
            Some(self.highest_state(step))
        }
    }

    // How each step stands.
    fn standings(&self, heap: Global) -> Result<Vec<Option<RowState>>, AllocError>
        ensures { IfOk result (λ v. v.items ≡ standings (chart_of self.now) (sheet_of self.now).rows) }
    {
        let steps = self.process.steps().len() as u16;
        (1..steps + 1).map(|step| self.standing(step)).collect(heap)
    }

    /// What is told of the sheet: no private entry changes it.
    pub fn summary(&self, heap: Global) -> Result<Summary, AllocError>
        ensures tells { IfOk result (λ x. summary_told x ≡ summary_of (chart_of self.now) (sheet_of self.now)) }
        ensures secret { IfOk result (λ x.
            TellsNothingPrivate (chart_of self.now) (sheet_of self.now) (summary_told x)) }
    {
        Ok(Summary {
            phase: self.phase,
            rollbacks: self.rollback,
            rows: self.row_counts(),
            standings: self.standings(heap)?,
        })
    }
}
