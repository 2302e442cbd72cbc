// A ledger's lines and their sum.
ghost use Rattle.std.specs.Prelude.{◌≡◌, ◌^◌, ◌≤◌, length, pos, neg_ℤ, ◌≤ℤ◌, if◌then◌else◌};
ghost use Rattle.ledger.specs.Lines.{state_at, is_hold, lines_most};
ghost use Rattle.ledger.specs.Fees.{worth, posted, number_of};

use host::RowKey;
use values::{Entry, HostState, Kind};

/// The most lines of a table that a ledger uses.
pub const LINES: usize = 768;

/// What a line does with its row.
#[derive(Clone, Copy, PartialEq, Eq, Debug, Drop)]
pub enum Mark {
    Hold = 0,
    Post = 1,
    Contra = 2,
    Release = 3,
}

/// One line of a ledger.
#[derive(Clone, Copy, PartialEq, Eq, Debug, Drop)]
pub struct Line {
    pub mark: Mark,
    pub row: RowKey,
    pub entry: Entry,
}

impl Mark {
    /// The state of a row whose last line has this mark.
    pub fn state(self) -> HostState
        ensures { result ≡ state_at self }
    {
        match self {
            Mark::Hold => HostState::Open,
            Mark::Post => HostState::Standing,
            Mark::Contra => HostState::Reversed,
            Mark::Release => HostState::Void,
        }
    }

    // How many rows a line with this mark begins.
    pub(crate) fn begins(self) -> usize
        ensures { result ≡ (if is_hold self then 1 else 0) }
    {
        usize::from(self == Mark::Hold)
    }
}

impl Line {
    /// A line that is not in use, to make a table of.
    pub const UNUSED: Line = Line {
        mark: Mark::Release,
        row: 0,
        entry: Entry {
            kind: Kind::Fee,
            number: None,
        },
    };

    /// What the line adds to the balance: a post its number, a contra the same number taken away.
    pub fn worth(self) -> i64
        ensures value { result ≡ worth self }
        ensures low { neg_ℤ (pos (2 ^ 31)) ≤ℤ result }
        ensures high { result ≤ℤ pos (2 ^ 31) }
    {
        let number = number_of(self.entry);
        match self.mark {
            Mark::Post => number,
            Mark::Contra => -number,
            Mark::Hold | Mark::Release => 0,
        }
    }
}

// The number of an entry; an empty one counts 0.
fn number_of(entry: Entry) -> i64
    ensures value { result ≡ number_of entry.number }
    ensures low { neg_ℤ (pos (2 ^ 31)) ≤ℤ result }
    ensures high { result ≤ℤ pos (2 ^ 31) }
{
    entry.number.map_or(0, i64::from)
}

// What the posts come to, without the contras.
pub(crate) fn total(lines: &[Line]) -> i64
    requires { length lines.now ≤ lines_most }
    ensures { result ≡ posted lines.now }
{
    // The loop's invariant says that the sum so far fits.
    let mut sum = 0;
    for line in lines {
        sum += line.worth();
    }
    sum
}
