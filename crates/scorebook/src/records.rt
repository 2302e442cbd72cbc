// A score book's records.
use host::RowKey;
use values::{Entry, HostState, Kind};

/// What a score book keeps of a row.
#[derive(Clone, Copy, PartialEq, Eq, Debug, Drop)]
pub struct Record {
    pub row: RowKey,
    pub entry: Entry,
    pub state: HostState,
}

impl Record {
    /// A record that is not in use, to make a table of.
    pub const UNUSED: Record = Record {
        row: 0,
        entry: Entry {
            kind: Kind::Score,
            number: None,
        },
        state: HostState::Unknown,
    };
}
