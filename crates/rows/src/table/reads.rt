// What a row holds, by its number.
ghost use Rattle.std.specs.Prelude.{◌≡◌, ◌≤◌, length, MatchOption};
ghost use Rattle.rows.specs.Columns.{no_row, row_at};
ghost use Rattle.rows.specs.Tables.{rows_of, rolled_of};

use super::RowTable;
use crate::counted::numbered;
use crate::row::Row;
use values::{Entry, Kind, RowState};

// The entry of a row that is not there: an empty score.
const NO_ENTRY: Entry = Entry {
    kind: Kind::Score,
    number: None,
};

impl RowTable {
    /// How many rows there are.
    pub fn len(&self) -> u16
        ensures { result ≡ (rows_of self.now).count }
    {
        self.rows.len() as u16
    }

    // The row of that number.
    fn get(&self, number: u16) -> Option<&Row>
        ensures { MatchOption result (row_at self.now.rows.items number ≡ no_row)
            (λ row. row.now ≡ row_at self.now.rows.items number) }
    {
        numbered(&self.rows, number)
    }

    // The model's columns are total: a number that is no row's has the state absent, step 0 and an empty score.

    /// A row's state; absent where there is no such row.
    pub fn state(&self, number: u16) -> RowState
        ensures { result ≡ (rows_of self.now).state number }
    {
        self.get(number).map_or(RowState::Absent, |row| row.state)
    }

    /// A row's step; 0 where there is no such row.
    pub fn step(&self, number: u16) -> u16
        ensures { result ≡ (rows_of self.now).step number }
    {
        self.get(number).map_or(0, |row| row.step)
    }

    /// A row's entry; an empty score where there is no such row.
    pub fn entry(&self, number: u16) -> Entry
        ensures { result ≡ (rows_of self.now).entry number }
    {
        self.get(number).map_or(NO_ENTRY, |row| row.entry)
    }

    /// The rollback that dropped or struck a row; 0 if none did, and where there is no such row.
    pub fn rolled(&self, number: u16) -> u16
        ensures { result ≡ rolled_of self.now number }
    {
        self.get(number).map_or(0, |row| row.rolled)
    }

    /// The rows that a row follows by one arrow; none where there is no such row.
    pub fn predecessors(&self, number: u16) -> &[u16]
        ensures all { result.now ≡ (rows_of self.now).preds number }
        ensures few { length result.now ≤ 8 }
    {
        match self.get(number) {
            Some(row) => row.predecessors.as_slice(),
            None => &[],
        }
    }
}
