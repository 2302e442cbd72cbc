// The ledger as a host.
ghost use Rattle.std.specs.Prelude.{◌≡◌, true, false, [], ◌∷◌, ◌++◌, vec_len, None, IfOk, OnErr};
ghost use Rattle.values.specs.declared.HostState.TheVariants.{Open, Standing, Void, Reversed};
ghost use Rattle.values.specs.declared.Kind.TheVariants.{Fee};
ghost use Rattle.host.specs.Commands.{LeavesAll};
ghost use Rattle.host.specs.Known.{Alone};
ghost use Rattle.host.specs.Laws.{alone_whole, alone_empty, alone_sorted, nothing_moves};
ghost use Rattle.host.specs.View.{Moves, Fresh, blank};
ghost use Rattle.ledger.specs.Book.{ledger_view, lines_of, rest_of, rows_in, Turned, LedgerMakes, LedgerGoes};
ghost use Rattle.ledger.specs.Laws.{ledger_sound, ledger_stays, ledger_goes_on};
ghost use Rattle.ledger.specs.Lines.{may_follow, state_at};
ghost use Rattle.ledger.specs.declared.lines.Mark.TheVariants.{Hold, Post, Contra, Release};

use crate::book::Ledger;
use crate::lines::{Line, Mark};
use host::{Controls, Host, NoCommand, Places, RowKey, Table, declined};
use values::{Cause, Entry, Fault, HostState, Kind};

impl Ledger {
    /// An empty ledger over a table of any length, also 0.
    pub fn new(table: Vec<Line>) -> Ledger
        ensures shows { ledger_view result ≡ blank Fee (rows_in (vec_len table)) }
        ensures fresh { Fresh (ledger_view result) }
        ensures lines { lines_of result ≡ [] }
        ensures rest { rest_of result ≡ table.items }
    {
        Ledger {
            table: Table::new(table),
            places: Places::new(),
            begun: 0,
        }
    }

    /// Closes the ledger and gives the table back: the lines written, and then the rest as it was.
    pub fn into_table(self) -> Vec<Line>
        ensures { result.items ≡ lines_of self ++ rest_of self }
    {
        let Ledger {
            table,
            places: _,
            begun: _,
        } = self;
        table.into_items()
    }

    // Adds a line with another mark to a row whose last line has this one.
    fn turn(&mut self, row: RowKey, from: Mark, to: Mark) -> Result<(), Fault>
        requires { may_follow from to ≡ true }
        ensures does { Moves (state_at from) (state_at to) (ledger_view self.old) row result (ledger_view self.new) }
        ensures turned { IfOk result (λ _. Turned to self.old self.new row) }
        ensures declined { OnErr result (self.new ≡ self.old) }
        ensures goes { LedgerGoes self.old self.new }
    {
        match self.last(row) {
            Some(line) if line.mark == from => {
                self.add(Line {
                    mark: to,
                    row,
                    entry: line.entry,
                });
                Ok(())
            }
            _ => declined(Cause::OtherState, row),
        }
    }
}

impl Host for Ledger {
    ghost view = { ledger_view };

    ghost makes = { LedgerMakes };

    ghost goes = { LedgerGoes };

    ghost holds = { Alone ledger_view };

    ghost sound = { ledger_sound };

    ghost stays = { ledger_stays };

    ghost goes_on = { ledger_goes_on };

    ghost whole = { alone_whole ledger_view };

    ghost empty = { alone_empty ledger_view ledger_sound };

    ghost stays_sorted = { alone_sorted ledger_view LedgerGoes };

    fn begin(&mut self, row: RowKey, entry: Entry) -> Result<(), Fault> {
        self.may_begin(row, entry.kind)?;
        self.add(Line {
            mark: Mark::Hold,
            row,
            entry,
        });
        Ok(())
    }

    fn commit(&mut self, row: RowKey) -> Result<(), Fault> {
        self.turn(row, Mark::Hold, Mark::Post)
    }

    fn drop_row(&mut self, row: RowKey) -> Result<(), Fault> {
        self.turn(row, Mark::Hold, Mark::Release)
    }

    fn undo(&mut self, row: RowKey) -> Result<(), Fault> {
        self.turn(row, Mark::Post, Mark::Contra)
    }

    fn is_shut(&self) -> bool {
        false
    }

    fn room(&self, kind: Kind) -> u16 {
        if kind == Kind::Fee { self.free() } else { 0 }
    }

    fn state(&self, row: RowKey) -> HostState {
        self.last(row)
            .map_or(HostState::Unknown, |line| line.mark.state())
    }

    fn entry(&self, row: RowKey) -> Option<Entry> {
        self.last(row).map(|line| line.entry)
    }
}

// Nothing shuts or opens the book.
impl Controls for Ledger {
    type Command = NoCommand;

    ghost declines = { λ _ _. None };

    ghost shuts = { λ _ _. false };

    ghost leaves = { LeavesAll };

    ghost moves_no_row = { nothing_moves (Alone ledger_view) };

    fn control(&mut self, _command: &NoCommand) -> Result<bool, Fault> {
        Ok(self.is_shut())
    }
}
