// A table made, and a row written or added.
ghost use Rattle.std.specs.Prelude.{◌≡◌, ℕ, ◌≤◌, true, cond, ◌&&◌, ◌||◌, length, is_ok, IfOk, ◌==◌};
ghost use Rattle.values.specs.declared.RowState.TheVariants.{Absent};
ghost use Rattle.model.specs.Rows.{no_rows, in_state, marked, added};
ghost use Rattle.model.specs.Search.{has};
ghost use Rattle.rowset.specs.Members.{is_number, contains};
ghost use Rattle.rows.specs.Columns.{fits};
ghost use Rattle.rows.specs.States.{set_at};
ghost use Rattle.rows.specs.Tables.{rows_of, rolled_of};

use super::by_state::put_in;
use super::{MOST_ROWS, RowTable, Sets, Unfit};
use crate::row::{Predecessors, Row};
use rowset::RowSet;
use std::alloc::{AllocError, Global};
use values::{Entry, RowState};

// Makes a row a follower of each of its predecessors.
fn add_follower(followers: &mut [RowSet], predecessors: &[u16], row: u16)
    requires row { is_number row ≡ true }
    requires inside { (k : ℕ) → has k predecessors.now ≡ true → (1 ≤ k) × (k ≤ length followers.old) }
    ensures sets { (k v : ℕ) → contains (set_at followers.new k) v
        ≡ (contains (set_at followers.old k) v || (v == row && has k predecessors.now)) }
    ensures len { length followers.new ≡ length followers.old }
{
    for k in predecessors {
        followers[*k as usize - 1].insert(row);
    }
}

impl RowTable {
    /// A table without rows. It takes the memory for all its rows now.
    pub fn new(heap: Global) -> Result<RowTable, AllocError>
        ensures rows { IfOk result (λ t. rows_of t ≡ no_rows) }
        ensures rolled { IfOk result (λ t. rolled_of t ≡ (λ _. 0)) }
    {
        let rows = Vec::with_capacity(heap, MOST_ROWS)?;
        let followers = Vec::with_capacity(heap, MOST_ROWS)?;
        let states = [RowSet::new(); 6];
        let highest = RowSet::new();
        let sets = Sets {
            followers,
            states,
            highest,
        };
        Ok(RowTable { rows, sets })
    }

    /// Puts a row into another state; nothing changes where there is no such row.
    pub fn set_state(&mut self, number: u16, to: RowState)
        ensures rows { rows_of self.new
            ≡ cond (in_state (rows_of self.old) Absent number) (rows_of self.old)
            (marked (rows_of self.old) number to) }
        ensures rolled { rolled_of self.new ≡ rolled_of self.old }
    {
        let from = self.state(number);
        if from == RowState::Absent {
            return;
        }
        // a row that is not absent is in the table
        self.rows[number as usize - 1].state = to;
        put_in(&mut self.sets.states, from, number, false);
        put_in(&mut self.sets.states, to, number, true);
    }

    /// Whether a row that follows these can be added: there is a place, and they are at most eight of the rows.
    pub fn fits(&self, predecessors: &[u16]) -> bool
        ensures { result ≡ fits (rows_of self.now) predecessors.now }
    {
        self.rows.len() < MOST_ROWS
            && predecessors.len() <= 8
            && predecessors
                .iter()
                .all(|row| (1..=self.len()).contains(row))
    }

    /// Adds a running row; nothing changes where it does not fit.
    pub fn push(&mut self, step: u16, predecessors: &[u16], entry: Entry) -> Result<(), Unfit>
        ensures fits { is_ok result ≡ fits (rows_of self.old) predecessors.now }
        ensures rows { rows_of self.new
            ≡ cond (is_ok result) (added (rows_of self.old) step predecessors.now entry)
            (rows_of self.old) }
        ensures rolled { rolled_of self.new ≡ rolled_of self.old }
    {
        if !self.fits(predecessors) {
            return Err(Unfit);
        }
        let row = self.len() + 1;
        let mut highest = self.highest_of_others(step);
        highest.insert(row);
        add_follower(&mut self.sets.followers, predecessors, row);
        put_in(&mut self.sets.states, RowState::Running, row, true);
        self.sets.highest = highest;
        self.sets.followers.push_reserved(RowSet::new());
        self.rows.push_reserved(Row {
            step,
            predecessors: Predecessors::new(predecessors),
            entry,
            state: RowState::Running,
            rolled: 0,
        });
        Ok(())
    }
}
