// The rows after an abort.
ghost use Rattle.std.specs.Prelude.{◌≡◌, ℕ, true, cond, ◌&&◌, ◌||◌, [], ◌==◌};
ghost use Rattle.values.specs.declared.RowState.TheVariants.{Running, Committed};
ghost use Rattle.model.specs.Rollback.{fallen};
ghost use Rattle.model.specs.Rows.{in_state, idle, live, with_states};
ghost use Rattle.rowset.specs.Members.{contains};
ghost use Rattle.rows.specs.Tables.{rows_of, rolled_of};

use super::RowTable;
use crate::steps::step_at;
use process::parts::Step;
use rowset::RowSet;
use values::RowState;

// What becomes of a state in an abort that strikes the row if it is committed.
fn fallen(state: RowState, idle: bool) -> RowState
    ensures { result ≡ fallen state true idle }
{
    match state {
        RowState::Running => RowState::Dropped,
        RowState::Committed if idle => RowState::PassedOver,
        RowState::Committed => RowState::Due,
        other => other,
    }
}

impl RowTable {
    // Whether a row has nothing to take back: an empty entry at a public step, or a step that cannot be compensated.
    fn is_idle(&self, steps: &[Step], row: u16) -> bool
        ensures { result ≡ idle (steps.now, []) (rows_of self.now) row }
    {
        let step = step_at(steps, self.step(row));
        !step.counterpart || !step.private && self.entry(row).number.is_none()
    }

    // Gives a live row the number of a rollback.
    fn set_rolled(&mut self, row: u16, number: u16)
        ensures rows { rows_of self.new ≡ rows_of self.old }
        ensures rolled { rolled_of self.new
            ≡ (λ k. cond (k == row && live ((rows_of self.old).state k)) number (rolled_of self.old k)) }
    {
        if self.is_live(row) {
            // a live row is in the table
            self.rows[row as usize - 1].rolled = number;
        }
    }

    // Takes one row back.
    fn fall_row(&mut self, steps: &[Step], row: u16, number: u16)
        ensures rows { rows_of self.new ≡ with_states (rows_of self.old)
            (λ k. cond (k == row) (fallen ((rows_of self.old).state k) true (idle (steps.now, []) (rows_of self.old) k))
            ((rows_of self.old).state k)) }
        ensures rolled { rolled_of self.new
            ≡ (λ k. cond (k == row && live ((rows_of self.old).state k)) number (rolled_of self.old k)) }
    {
        self.set_rolled(row, number);
        let to = fallen(self.state(row), self.is_idle(steps, row));
        self.set_state(row, to);
    }

    /// The rows after an abort: what ran is dropped, and a committed row of `struck` is due, or passed over where it is idle.
    /// Each row that is changed so gets the rollback's number.
    pub fn fall(&mut self, steps: &[Step], struck: &RowSet, number: u16)
        ensures rows { rows_of self.new ≡ with_states (rows_of self.old)
            (λ k. fallen ((rows_of self.old).state k)
            (in_state (rows_of self.old) Committed k && contains struck.now k)
            (idle (steps.now, []) (rows_of self.old) k)) }
        ensures rolled { rolled_of self.new
            ≡ (λ k. cond (in_state (rows_of self.old) Running k
            || (in_state (rows_of self.old) Committed k && contains struck.now k))
            number (rolled_of self.old k)) }
    {
        let mut falling = self.rows_in(RowState::Running);
        falling.join(struck);
        for row in falling.iter() {
            self.fall_row(steps, row, number);
        }
    }
}
