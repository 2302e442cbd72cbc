// The records of a score book, and the two ways in which they change.
ghost use Rattle.std.specs.Prelude.{◌≡◌, ◌-◌, ◌<◌, true, false, [], ◌∷◌, ◌++◌, drop, None};
ghost use Rattle.host.specs.Keys.{is_row};
ghost use Rattle.host.specs.View.{is_unknown};
ghost use Rattle.scorebook.specs.Book.{records_of, rest_of, free_of};
ghost use Rattle.scorebook.specs.Records.{find_in, turned, is_score, scores};

use crate::book::ScoreBook;
use crate::records::Record;
use host::{ROWS, RowKey};
use values::HostState;

impl ScoreBook {
    /// The records in use, the oldest first.
    pub fn records(&self) -> &[Record]
        ensures records { result.now ≡ records_of self.now }
        ensures scores { scores result.now ≡ true }
    {
        self.table.used()
    }

    // The record of a row.
    pub(super) fn find(&self, row: RowKey) -> Option<Record>
        ensures { result ≡ find_in (records_of self.now) row }
    {
        let i = self.places.get(row)?;
        Some(self.table.used()[i])
    }

    // How many more records may be used.
    pub(super) fn free(&self) -> u16
        ensures { result ≡ free_of self.now }
    {
        let most = self.table.capacity().min(usize::from(ROWS));
        (most - self.table.used().len()) as u16
    }

    // Uses one more record.
    pub(super) fn add(&mut self, new: Record)
        requires space { 0 < free_of self.old }
        requires row { is_row new.row ≡ true }
        requires score { is_score new.entry ≡ true }
        requires known { is_unknown new.state ≡ false }
        requires unused { find_in (records_of self.old) new.row ≡ None }
        ensures records { records_of self.new ≡ records_of self.old ++ new ∷ [] }
        ensures rest { rest_of self.new ≡ drop 1 (rest_of self.old) }
        ensures free { free_of self.new ≡ free_of self.old - 1 }
    {
        self.places.set(new.row, self.table.used().len());
        self.table.push(new).unwrap();
    }

    // Puts the record of a row, if there is one, into another state.
    pub(super) fn restate(&mut self, row: RowKey, to: HostState)
        requires { is_unknown to ≡ false }
        ensures records { records_of self.new ≡ turned (records_of self.old) row to }
        ensures rest { rest_of self.new ≡ rest_of self.old }
        ensures free { free_of self.new ≡ free_of self.old }
    {
        if let Some(i) = self.places.get(row) {
            let old = self.table.used()[i];
            self.table.set(i, Record { state: to, ..old });
        }
    }
}
