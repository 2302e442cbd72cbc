// What a row holds.
ghost use Rattle.std.specs.Prelude.{◌≡◌, take};
ghost use Rattle.rows.specs.Columns.{listed};

use arrayvec::ArrayVec;
use values::{Entry, RowState};

/// The rows that a row follows by one arrow, eight at most, in the order given.
// An array with its length beside it, so that rows are copied: no `ArrayVec` is.
#[derive(Clone, Copy, PartialEq, Eq, Debug, Drop)]
pub struct Predecessors {
    pub(crate) numbers: [u16; 8],
    pub(crate) count: usize,
}

/// A row: its step, the rows that it follows, its entry, its state, and the rollback that dropped or struck it, 0 if none did.
#[derive(Clone, Copy, PartialEq, Eq, Debug, Drop)]
pub struct Row {
    pub step: u16,
    pub predecessors: Predecessors,
    pub entry: Entry,
    pub state: RowState,
    // The model's column has 0 where no rollback did. A listing does not read it: the sheet keeps what that wants as a set.
    pub rolled: u16,
}

/// The first eight of a list.
pub fn first_eight(list: &[u16]) -> ArrayVec<u16, 8>
    ensures { result.items ≡ take 8 list.now }
{
    ArrayVec::try_from(&list[..list.len().min(8)]).unwrap()
}

impl Predecessors {
    /// The first eight of a list.
    pub fn new(list: &[u16]) -> Predecessors
        ensures { listed result ≡ take 8 list.now }
    {
        let few = first_eight(list);
        let count = few.len();
        let mut numbers = [0; 8];
        numbers[..count].copy_from_slice(&few);
        Predecessors { numbers, count }
    }

    /// The numbers, in their order.
    pub fn as_slice(&self) -> &[u16]
        ensures { result.now ≡ listed self.now }
    {
        &self.numbers[..self.count.min(8)]
    }
}
