// Calls as values, and a list of them made on any host.
ghost use Rattle.std.specs.Prelude.{◌≡◌};
ghost use Rattle.host.specs.Calls.{row_of, Performs, after_calls, accepted};
ghost use Rattle.host.specs.Later.{Later};
ghost use Rattle.host.specs.Made.{Made};

use crate::hosts::Host;
use crate::keys::RowKey;
use values::{Entry, Fault};

/// One call on a host.
#[derive(Clone, Copy, PartialEq, Eq, Debug, Drop)]
pub enum Call {
    Begin(RowKey, Entry),
    Commit(RowKey),
    Drop(RowKey),
    Undo(RowKey),
}

impl Call {
    /// Makes the call.
    pub fn make<X: Host>(self, host: &mut X) -> Result<(), Fault>
        ensures does { Performs (X.Host.view host.old) self result (X.Host.view host.new) }
        ensures made { X.Host.makes host.old self result host.new }
        ensures goes { X.Host.goes host.old host.new }
    {
        match self {
            Call::Begin(row, entry) => host.begin(row, entry),
            Call::Commit(row) => host.commit(row),
            Call::Drop(row) => host.drop_row(row),
            Call::Undo(row) => host.undo(row),
        }
    }

    // The row of the call.
    pub(crate) fn row(self) -> RowKey
        ensures { result ≡ row_of self }
    {
        match self {
            Call::Begin(row, _) | Call::Commit(row) | Call::Drop(row) | Call::Undo(row) => row,
        }
    }
}

/// Makes the calls of a list one after another, also after a declined one, and says how many were accepted.
pub fn make_all<X: Host>(host: &mut X, calls: &[Call]) -> usize
    ensures answers { result ≡ accepted (X.Host.view host.old) calls.now }
    ensures shows { X.Host.view host.new ≡ after_calls (X.Host.view host.old) calls.now }
    ensures later { Later (X.Host.view host.old) (X.Host.view host.new) }
    ensures made { Made X.Host.view X.Host.makes host.old calls.now host.new }
    ensures goes { X.Host.goes host.old host.new }
{
    let mut count = 0;
    for call in calls {
        if call.make(host).is_ok() {
            count += 1;
        }
    }
    count
}
