// Two hosts as one: which of them has a row depends on the row's kind.
ghost use Rattle.std.specs.Prelude.{◌≡◌};
ghost use Rattle.values.specs.Numbers.{same_kind};
ghost use Rattle.host.specs.Calls.{Performs};
ghost use Rattle.host.specs.Commands.{pair_declines, pair_shuts, PairLeaves};
ghost use Rattle.host.specs.Laws.{pair_stays, pair_goes_on, pair_whole, pair_empty, pair_sorted, pair_moves_no_row};
ghost use Rattle.host.specs.Views.{joined, pair_view, PairHolds, PairGoes, PairMakes, for_first};
ghost use Rattle.std.proofs.Common.{rules};

use crate::calls::Call;
use crate::declines::declined;
use crate::hosts::{Controls, Host};
use crate::keys::RowKey;
use values::{Cause, Entry, Fault, HostState, Kind};

/// Two hosts as one: the first is for the rows of `kind`, the second for those of any other.
#[derive(Drop)]
pub struct Pair<X, Y> {
    kind: Kind,
    first: X,
    second: Y,
}

/// Commands one of a pair's two hosts.
#[derive(Clone, Copy, PartialEq, Eq, Debug, Drop)]
pub enum PairCommand<C, D> {
    First(C),
    Second(D),
}

impl<X: Host, Y: Host> Host for Pair<X, Y> {
    ghost view = { pair_view X.Host.view Y.Host.view };

    ghost makes = { PairMakes X.Host.view X.Host.makes Y.Host.view Y.Host.makes };

    ghost goes = { PairGoes X.Host.view X.Host.holds X.Host.goes Y.Host.view Y.Host.holds Y.Host.goes };

    ghost holds = { PairHolds X.Host.holds Y.Host.holds };

    ghost sound = { Prim.search rules };

    ghost stays = { pair_stays X.Host.stays Y.Host.stays };

    ghost goes_on = { pair_goes_on X.Host.goes_on Y.Host.goes_on };

    ghost whole = { pair_whole X.Host.view X.Host.holds Y.Host.view Y.Host.holds X.Host.sound X.Host.whole Y.Host.whole };

    ghost empty = { pair_empty X.Host.view X.Host.holds Y.Host.view Y.Host.holds X.Host.empty Y.Host.empty };

    ghost stays_sorted = { pair_sorted X.Host.view X.Host.holds Y.Host.view Y.Host.holds X.Host.goes Y.Host.goes };

    // Each call goes on as a value.
    fn begin(&mut self, row: RowKey, entry: Entry) -> Result<(), Fault> {
        self.pass(Call::Begin(row, entry))
    }

    fn commit(&mut self, row: RowKey) -> Result<(), Fault> {
        self.pass(Call::Commit(row))
    }

    fn drop_row(&mut self, row: RowKey) -> Result<(), Fault> {
        self.pass(Call::Drop(row))
    }

    fn undo(&mut self, row: RowKey) -> Result<(), Fault> {
        self.pass(Call::Undo(row))
    }

    fn is_shut(&self) -> bool {
        self.first.is_shut() || self.second.is_shut()
    }

    fn room(&self, kind: Kind) -> u16 {
        if self.takes_first(kind) {
            self.first.room(kind)
        } else {
            self.second.room(kind)
        }
    }

    fn state(&self, row: RowKey) -> HostState {
        let state = self.first.state(row);
        if state == HostState::Unknown {
            self.second.state(row)
        } else {
            state
        }
    }

    fn entry(&self, row: RowKey) -> Option<Entry> {
        self.first.entry(row).or_else(|| self.second.entry(row))
    }
}

impl<X: Controls, Y: Controls> Controls for Pair<X, Y> {
    type Command = PairCommand<X::Command, Y::Command>;

    ghost declines = { pair_declines X.Controls.declines Y.Controls.declines };

    ghost shuts = { pair_shuts X.Host.view X.Controls.shuts Y.Host.view Y.Controls.shuts };

    ghost leaves = { PairLeaves X.Controls.leaves Y.Controls.leaves };

    ghost moves_no_row = { pair_moves_no_row X.Host.holds X.Controls.leaves Y.Host.holds Y.Controls.leaves X.Controls.moves_no_row Y.Controls.moves_no_row };

    fn control(&mut self, command: &PairCommand<X::Command, Y::Command>) -> Result<bool, Fault> {
        match command {
            PairCommand::First(c) => self.first.control(c)?,
            PairCommand::Second(c) => self.second.control(c)?,
        };
        Ok(self.is_shut())
    }
}

impl<X: Host, Y: Host> Pair<X, Y> {
    /// A pair of these hosts: the first is for rows of this kind, the second for those of any other.
    pub fn new(kind: Kind, first: X, second: Y) -> Pair<X, Y>
        ensures shows { pair_view X.Host.view Y.Host.view result ≡ joined kind (X.Host.view first) (Y.Host.view second) }
        ensures kind { result.kind ≡ kind }
        ensures first { result.first ≡ first }
        ensures second { result.second ≡ second }
    {
        Pair {
            kind,
            first,
            second,
        }
    }

    // Whether the first host is the one for a kind.
    fn takes_first(&self, kind: Kind) -> bool
        ensures { result ≡ same_kind kind self.now.kind }
    {
        kind == self.kind
    }

    // Whether a call is for the first host: by the row, if either host knows it, and else by the kind.
    fn is_for_first(&self, call: Call) -> bool
        ensures { result ≡ for_first self.now.kind (X.Host.view self.now.first) (Y.Host.view self.now.second) call }
    {
        if self.first.state(call.row()) != HostState::Unknown {
            return true;
        }
        match call {
            Call::Begin(row, entry) => {
                self.takes_first(entry.kind) && self.second.state(row) == HostState::Unknown
            }
            _ => false,
        }
    }

    // Makes a call at the host that it is for, unless the pair is shut.
    fn pass(&mut self, call: Call) -> Result<(), Fault>
        ensures does { Performs (pair_view X.Host.view Y.Host.view self.old) call result (pair_view X.Host.view Y.Host.view self.new) }
        ensures made { PairMakes X.Host.view X.Host.makes Y.Host.view Y.Host.makes self.old call result self.new }
        ensures goes { PairGoes X.Host.view X.Host.holds X.Host.goes Y.Host.view Y.Host.holds Y.Host.goes self.old self.new }
    {
        if self.is_shut() {
            return declined(Cause::ShutHost, call.row());
        }
        if self.is_for_first(call) {
            call.make(&mut self.first)
        } else {
            call.make(&mut self.second)
        }
    }

    /// The host for the pair's kind.
    pub fn first(&self) -> &X
        ensures { result.now ≡ self.now.first }
    {
        &self.first
    }

    /// The host for any other kind.
    pub fn second(&self) -> &Y
        ensures { result.now ≡ self.now.second }
    {
        &self.second
    }

    /// Parts the pair and gives its two hosts.
    pub fn into_hosts(self) -> (X, Y)
        ensures first { result.0 ≡ self.first }
        ensures second { result.1 ≡ self.second }
    {
        let Pair {
            kind: _,
            first,
            second,
        } = self;
        (first, second)
    }
}
