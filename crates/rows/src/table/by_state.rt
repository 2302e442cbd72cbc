// The sets of the rows in each state.
ghost use Rattle.std.specs.Prelude.{◌≡◌, ℕ, not, ◌&&◌, if◌then◌else◌, ◌==◌};
ghost use Rattle.values.specs.Numbers.{row_state_number, same_state};
ghost use Rattle.values.specs.declared.RowState.{RowState as State};
ghost use Rattle.values.specs.declared.RowState.TheVariants.{Absent};
ghost use Rattle.rowset.specs.Members.{is_number, contains};
ghost use Rattle.rows.specs.States.{row_in, set_at};
ghost use Rattle.rows.specs.Tables.{rows_of};

use super::RowTable;
use crate::counted::numbered;
use rowset::RowSet;
use values::RowState;

/// The number of a state: its set has that number, and absent numbers have no set.
fn set_number(state: RowState) -> u16
    ensures { result ≡ row_state_number state }
{
    u16::from(u8::from(state))
}

/// Makes a row a member of a state's set or not.
pub(crate) fn put_in(states: &mut [RowSet; 6], state: RowState, row: u16, is_member: bool)
    ensures { (st : State) (k : ℕ) → contains (set_at states.new (row_state_number st)) k
        ≡ (if same_state st state && k == row then not (same_state st Absent) && (is_member && is_number k)
        else contains (set_at states.old (row_state_number st)) k) }
{
    if let Some(place) = usize::from(set_number(state)).checked_sub(1) {
        states[place].put(row, is_member);
    }
}

impl RowTable {
    /// The rows in a state. A number that is absent is no row.
    pub fn rows_in(&self, state: RowState) -> RowSet
        ensures { (k : ℕ) → contains result k ≡ row_in (rows_of self.now) state k }
    {
        match numbered(&self.sets.states, set_number(state)) {
            Some(set) => *set,
            None => RowSet::new(),
        }
    }
}
