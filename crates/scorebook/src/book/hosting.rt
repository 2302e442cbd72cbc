// The score book as a host.
ghost use Rattle.std.specs.Prelude.{◌≡◌, min, false, [], ◌++◌, vec_len, ◌==◌, None, IfOk, OnErr};
ghost use Rattle.values.specs.declared.Kind.TheVariants.{Score};
ghost use Rattle.host.specs.Keys.{rows_most};
ghost use Rattle.host.specs.Commands.{LeavesAll};
ghost use Rattle.host.specs.Known.{Alone};
ghost use Rattle.host.specs.Laws.{alone_whole, alone_empty, alone_sorted, nothing_moves};
ghost use Rattle.host.specs.View.{Moves, Fresh, blank, is_unknown};
ghost use Rattle.scorebook.specs.Book.{book_view, records_of, rest_of, Turned, BookMakes, BookGoes};
ghost use Rattle.scorebook.specs.Laws.{book_sound, book_stays, book_goes_on};

use crate::book::ScoreBook;
use crate::records::Record;
use host::{Controls, Host, NoCommand, Places, RowKey, Table};
use values::{Entry, Fault, HostState, Kind};

impl ScoreBook {
    /// An empty score book over a table of any length, also 0.
    pub fn new(table: Vec<Record>) -> ScoreBook
        ensures shows { book_view result ≡ blank Score (min rows_most (vec_len table)) }
        ensures fresh { Fresh (book_view result) }
        ensures records { records_of result ≡ [] }
        ensures rest { rest_of result ≡ table.items }
    {
        ScoreBook {
            table: Table::new(table),
            places: Places::new(),
        }
    }

    /// Closes the book and gives the table back: the records in use, and then the rest as it was.
    pub fn into_table(self) -> Vec<Record>
        ensures { result.items ≡ records_of self ++ rest_of self }
    {
        let ScoreBook { table, places: _ } = self;
        table.into_items()
    }

    // Turns a row from one state to another.
    fn turn(&mut self, row: RowKey, from: HostState, to: HostState) -> Result<(), Fault>
        requires was_known { is_unknown from ≡ false }
        requires is_known { is_unknown to ≡ false }
        ensures does { Moves from to (book_view self.old) row result (book_view self.new) }
        ensures turned { IfOk result (λ _. Turned to self.old self.new row) }
        ensures declined { OnErr result (self.new ≡ self.old) }
        ensures goes { BookGoes self.old self.new }
    {
        self.may_move(row, from)?;
        self.restate(row, to);
        Ok(())
    }
}

impl Host for ScoreBook {
    ghost view = { book_view };

    ghost makes = { BookMakes };

    ghost goes = { BookGoes };

    ghost holds = { Alone book_view };

    ghost sound = { book_sound };

    ghost stays = { book_stays };

    ghost goes_on = { book_goes_on };

    ghost whole = { alone_whole book_view };

    ghost empty = { alone_empty book_view book_sound };

    ghost stays_sorted = { alone_sorted book_view BookGoes };

    fn begin(&mut self, row: RowKey, entry: Entry) -> Result<(), Fault> {
        self.may_begin(row, entry.kind)?;
        self.add(Record {
            row,
            entry,
            state: HostState::Open,
        });
        Ok(())
    }

    fn commit(&mut self, row: RowKey) -> Result<(), Fault> {
        self.turn(row, HostState::Open, HostState::Standing)
    }

    fn drop_row(&mut self, row: RowKey) -> Result<(), Fault> {
        self.turn(row, HostState::Open, HostState::Void)
    }

    fn undo(&mut self, row: RowKey) -> Result<(), Fault> {
        self.turn(row, HostState::Standing, HostState::Reversed)
    }

    fn is_shut(&self) -> bool {
        false
    }

    fn room(&self, kind: Kind) -> u16 {
        if kind == Kind::Score { self.free() } else { 0 }
    }

    fn state(&self, row: RowKey) -> HostState {
        self.find(row).map_or(HostState::Unknown, |r| r.state)
    }

    fn entry(&self, row: RowKey) -> Option<Entry> {
        self.find(row).map(|r| r.entry)
    }
}

// Nothing shuts or opens the book.
impl Controls for ScoreBook {
    type Command = NoCommand;

    ghost declines = { λ _ _. None };

    ghost shuts = { λ _ _. false };

    ghost leaves = { LeavesAll };

    ghost moves_no_row = { nothing_moves (Alone book_view) };

    fn control(&mut self, _command: &NoCommand) -> Result<bool, Fault> {
        Ok(self.is_shut())
    }
}
