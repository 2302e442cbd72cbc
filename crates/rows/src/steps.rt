// Steps by their numbers, and what the step of a row says of it.
ghost use Rattle.std.specs.Prelude.{◌≡◌};
ghost use Rattle.model.specs.Chart.{step_at};
ghost use Rattle.model.specs.Rollback.{uncut};
ghost use Rattle.model.specs.Rows.{is_savepoint};
ghost use Rattle.rows.specs.Columns.{listed};
ghost use Rattle.rows.specs.Steps.{steps_only};
ghost use Rattle.rows.specs.Tables.{rows_of};

use crate::counted::numbered;
use crate::row::Predecessors;
use crate::table::RowTable;
use arrayvec::ArrayVec;
use process::parts::Step;
use values::{Flow, Kind};

// A step without any mark.
const NO_STEP: Step = Step {
    savepoint: false,
    counterpart: false,
    private: false,
    entry: Flow::One,
    exit: Flow::One,
    kind: Kind::Score,
};

/// A step, counted from 1; one without any mark where there is none of that number.
pub fn step_at(steps: &[Step], number: u16) -> Step
    ensures { result ≡ step_at (steps_only steps.now) number }
{
    numbered(steps, number).copied().unwrap_or(NO_STEP)
}

impl RowTable {
    // A table does not hold the steps of the process: each of these calls is lent them.

    /// Whether a row is one of a step at which a rollback stops.
    pub fn is_savepoint(&self, steps: &[Step], row: u16) -> bool
        ensures { result ≡ is_savepoint (steps_only steps.now) (rows_of self.now) row }
    {
        step_at(steps, self.step(row)).savepoint
    }

    /// The predecessors of a row that are no savepoints.
    pub fn uncut(&self, steps: &[Step], row: u16) -> Predecessors
        ensures { listed result ≡ uncut (steps_only steps.now) (rows_of self.now) row }
    {
        let mut uncut: ArrayVec<u16, 8> = ArrayVec::new();
        // a row has at most eight predecessors, so that each of these has a place
        for w in self.predecessors(row) {
            if !self.is_savepoint(steps, *w) {
                uncut.push(*w);
            }
        }
        Predecessors::new(&uncut)
    }
}
