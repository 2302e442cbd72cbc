// A host that keeps more than it shows: it counts the calls that it declines.
ghost use Rattle.std.specs.Prelude.{◌≡◌};
ghost use Rattle.host.specs.Calls.{Performs};
ghost use Rattle.host_tests.specs.Counting.{counting_view, CountingHolds, CountingMakes, CountingGoes, CountingLeaves, counting_stays, counting_goes_on};
ghost use Rattle.std.proofs.Common.{rules};

use host::{Call, Controls, Host, RowKey};
use values::{Entry, Fault, HostState, Kind};

/// Any host, with a count of declined calls.
#[derive(Drop)]
pub struct Counting<X> {
    inner: X,
    declined: u32,
}

impl<X: Host> Counting<X> {
    /// None is declined yet.
    pub fn new(inner: X) -> Counting<X>
        ensures inner { result.inner ≡ inner }
        ensures none { result.declined ≡ 0 }
    {
        Counting { inner, declined: 0 }
    }

    /// How many calls were declined.
    pub fn declined(&self) -> u32
        ensures { result ≡ self.now.declined }
    {
        self.declined
    }

    fn pass(&mut self, call: Call) -> Result<(), Fault>
        ensures does { Performs (counting_view X.Host.view self.old) call result (counting_view X.Host.view self.new) }
        ensures made { CountingMakes X.Host.makes self.old call result self.new }
        ensures goes { CountingGoes X.Host.goes self.old self.new }
    {
        let answer = call.make(&mut self.inner);
        if answer.is_err() {
            self.declined = self.declined.saturating_add(1);
        }
        answer
    }
}

impl<X: Host> Host for Counting<X> {
    ghost view = { counting_view X.Host.view };

    ghost makes = { CountingMakes X.Host.makes };

    ghost goes = { CountingGoes X.Host.goes };

    ghost holds = { CountingHolds X.Host.holds };

    ghost sound = { λ n. X.Host.sound n.inner };

    ghost stays = { counting_stays X.Host.stays };

    ghost goes_on = { counting_goes_on X.Host.goes_on };

    ghost whole = { λ n. X.Host.whole n.inner };

    ghost empty = { λ n. X.Host.empty n.inner };

    ghost stays_sorted = { λ n m goes. X.Host.stays_sorted n.inner m.inner goes.inner };

    fn begin(&mut self, row: RowKey, entry: Entry) -> Result<(), Fault> {
        self.pass(Call::Begin(row, entry))
    }

    fn commit(&mut self, row: RowKey) -> Result<(), Fault> {
        self.pass(Call::Commit(row))
    }

    fn drop_row(&mut self, row: RowKey) -> Result<(), Fault> {
        self.pass(Call::Drop(row))
    }

    fn undo(&mut self, row: RowKey) -> Result<(), Fault> {
        self.pass(Call::Undo(row))
    }

    fn is_shut(&self) -> bool {
        self.inner.is_shut()
    }

    fn room(&self, kind: Kind) -> u16 {
        self.inner.room(kind)
    }

    fn state(&self, row: RowKey) -> HostState {
        self.inner.state(row)
    }

    fn entry(&self, row: RowKey) -> Option<Entry> {
        self.inner.entry(row)
    }
}

impl<X: Controls> Controls for Counting<X> {
    type Command = X::Command;

    ghost declines = { λ n c. X.Controls.declines n.inner c };

    ghost shuts = { λ n c. X.Controls.shuts n.inner c };

    ghost leaves = { CountingLeaves X.Controls.leaves };

    ghost moves_no_row = { λ n c m left. X.Controls.moves_no_row n.inner c m.inner left.0 };

    fn control(&mut self, command: &X::Command) -> Result<bool, Fault> {
        self.inner.control(command)
    }
}
