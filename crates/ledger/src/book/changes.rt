// The lines of a ledger, and how one is added.
ghost use Rattle.std.specs.Prelude.{◌≡◌, ◌+◌, ◌-◌, ◌≤◌, true, [], ◌∷◌, ◌++◌, drop, if◌then◌else◌};
ghost use Rattle.host.specs.Keys.{is_row};
ghost use Rattle.host.specs.Known.{known_by};
ghost use Rattle.host.specs.Table.{capacity_of};
ghost use Rattle.ledger.specs.Book.{ledger_view, lines_of, rest_of, free_of, rows_in};
ghost use Rattle.ledger.specs.Fees.{posted, standing_sum};
ghost use Rattle.ledger.specs.Lines.{last_of, Follows, begun_in, is_hold, is_fee, fees};

use crate::book::Ledger;
use crate::lines::{LINES, Line, total};
use host::RowKey;

impl Ledger {
    /// The lines written so far, in the order in which they were written.
    pub fn lines(&self) -> &[Line]
        ensures lines { result.now ≡ lines_of self.now }
        ensures fees { fees result.now ≡ true }
    {
        self.table.used()
    }

    /// What the posts come to without the contras: so much are the fees that stand, all together.
    pub fn balance(&self) -> i64
        ensures posts { result ≡ posted (lines_of self.now) }
        ensures stands { result ≡ standing_sum (known_by (ledger_view self.now)) }
    {
        total(self.lines())
    }

    // The last line of a row.
    pub(super) fn last(&self, row: RowKey) -> Option<Line>
        ensures { result ≡ last_of (lines_of self.now) row }
    {
        let i = self.places.get(row)?;
        Some(self.table.used()[i])
    }

    // How many more rows may be begun.
    pub(super) fn free(&self) -> u16
        ensures { result ≡ free_of self.now }
    {
        let most = self.table.capacity().min(LINES) / 3;
        (most - self.begun) as u16
    }

    // Writes one more line.
    pub(super) fn add(&mut self, new: Line)
        requires row { is_row new.row ≡ true }
        requires fee { is_fee new.entry ≡ true }
        requires follows { Follows (last_of (lines_of self.old) new.row) new }
        requires room { begun_in (lines_of self.old) + (if is_hold new.mark then 1 else 0) ≤ rows_in (capacity_of self.old.table) }
        ensures lines { lines_of self.new ≡ lines_of self.old ++ new ∷ [] }
        ensures rest { rest_of self.new ≡ drop 1 (rest_of self.old) }
        ensures free { free_of self.new ≡ free_of self.old - (if is_hold new.mark then 1 else 0) }
    {
        self.places.set(new.row, self.table.used().len());
        self.table.push(new).unwrap();
        self.begun += new.mark.begins();
    }
}
