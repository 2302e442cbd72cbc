// A host that can be switched off, which shuts it, and on again.
ghost use Rattle.std.specs.Prelude.{◌≡◌, true};
ghost use Rattle.host.specs.Calls.{Performs};
ghost use Rattle.host.specs.Commands.{switch_declines, switch_shuts, SwitchLeaves};
ghost use Rattle.host.specs.Laws.{switch_stays, switch_goes_on, switch_whole, switch_empty, switch_sorted, switch_moves_no_row};
ghost use Rattle.host.specs.Views.{switch_view, SwitchHolds, SwitchGoes, SwitchMakes};
ghost use Rattle.std.proofs.Common.{rules};

use crate::calls::Call;
use crate::declines::declined;
use crate::hosts::{Controls, Host};
use crate::keys::RowKey;
use values::{Cause, Entry, Fault, HostState, Kind};

/// While it is on, all is as at the host below; turned off, it declines every call as a shut host does.
#[derive(Drop)]
pub struct Switch<X> {
    inner: X,
    on: bool,
}

/// Turns a switch, or commands the host below it.
#[derive(Clone, Copy, PartialEq, Eq, Debug, Drop)]
pub enum SwitchCommand<C> {
    On,
    Off,
    Below(C),
}

impl<X: Host> Host for Switch<X> {
    ghost view = { switch_view X.Host.view };

    ghost makes = { SwitchMakes X.Host.view X.Host.makes };

    ghost goes = { SwitchGoes X.Host.goes };

    ghost holds = { SwitchHolds X.Host.holds };

    ghost sound = { Prim.search rules };

    ghost stays = { switch_stays X.Host.stays };

    ghost goes_on = { switch_goes_on X.Host.goes_on };

    ghost whole = { switch_whole X.Host.view X.Host.holds X.Host.whole };

    ghost empty = { switch_empty X.Host.view X.Host.holds X.Host.empty };

    ghost stays_sorted = { switch_sorted X.Host.view X.Host.holds X.Host.stays_sorted };

    // Each call goes on as a value.
    fn begin(&mut self, row: RowKey, entry: Entry) -> Result<(), Fault> {
        self.pass(Call::Begin(row, entry))
    }

    fn commit(&mut self, row: RowKey) -> Result<(), Fault> {
        self.pass(Call::Commit(row))
    }

    fn drop_row(&mut self, row: RowKey) -> Result<(), Fault> {
        self.pass(Call::Drop(row))
    }

    fn undo(&mut self, row: RowKey) -> Result<(), Fault> {
        self.pass(Call::Undo(row))
    }

    fn is_shut(&self) -> bool {
        !self.on || self.inner.is_shut()
    }

    fn room(&self, kind: Kind) -> u16 {
        self.inner.room(kind)
    }

    fn state(&self, row: RowKey) -> HostState {
        self.inner.state(row)
    }

    fn entry(&self, row: RowKey) -> Option<Entry> {
        self.inner.entry(row)
    }
}

impl<X: Controls> Controls for Switch<X> {
    type Command = SwitchCommand<X::Command>;

    ghost declines = { switch_declines X.Controls.declines };

    ghost shuts = { switch_shuts X.Host.view X.Controls.shuts };

    ghost leaves = { SwitchLeaves X.Controls.leaves };

    ghost moves_no_row = { switch_moves_no_row X.Host.holds X.Controls.leaves X.Controls.moves_no_row };

    fn control(&mut self, command: &SwitchCommand<X::Command>) -> Result<bool, Fault> {
        match command {
            SwitchCommand::On => self.turn(true),
            SwitchCommand::Off => self.turn(false),
            SwitchCommand::Below(c) => {
                self.inner.control(c)?;
            }
        }
        Ok(self.is_shut())
    }
}

impl<X: Host> Switch<X> {
    /// Puts a switch over a host; it starts out on.
    pub fn new(inner: X) -> Switch<X>
        ensures shows { switch_view X.Host.view result ≡ X.Host.view inner }
        ensures on { result.on ≡ true }
        ensures inner { result.inner ≡ inner }
    {
        Switch { inner, on: true }
    }

    /// Turns the switch on or off. The host below stays as it is.
    pub fn turn(&mut self, on: bool)
        ensures on { self.new.on ≡ on }
        ensures inner { self.new.inner ≡ self.old.inner }
    {
        self.on = on;
    }

    /// Whether the switch is on.
    pub fn is_on(&self) -> bool
        ensures { result ≡ self.now.on }
    {
        self.on
    }

    // Makes a call at the host below, unless the switch is off.
    fn pass(&mut self, call: Call) -> Result<(), Fault>
        ensures does { Performs (switch_view X.Host.view self.old) call result (switch_view X.Host.view self.new) }
        ensures made { SwitchMakes X.Host.view X.Host.makes self.old call result self.new }
        ensures goes { SwitchGoes X.Host.goes self.old self.new }
    {
        if self.on {
            call.make(&mut self.inner)
        } else {
            declined(Cause::ShutHost, call.row())
        }
    }

    /// The host below.
    pub fn inner(&self) -> &X
        ensures { result.now ≡ self.now.inner }
    {
        &self.inner
    }

    /// Takes the switch away and gives the host below.
    pub fn into_inner(self) -> X
        ensures { result ≡ self.inner }
    {
        let Switch { inner, on: _ } = self;
        inner
    }
}
