// What a host is, and what shuts and opens one between calls.
ghost use Rattle.std.specs.Prelude.{◌≡◌, Bool, Option, Result};
ghost use Rattle.values.specs.Checks.{answer, first_fault};
ghost use Rattle.values.specs.declared.Fault.{Fault};
ghost use Rattle.values.specs.declared.HostState.TheVariants.{Open, Standing, Void, Reversed};
ghost use Rattle.host.specs.Commands.{shown_after, Controlled};
ghost use Rattle.host.specs.Known.{Known, HoldsWhatItShows, HoldsNothingFresh, StaysSorted, MovesNoRow};
ghost use Rattle.host.specs.declared.calls.Call.{Call};
ghost use Rattle.host.specs.declared.calls.Call.TheVariants.{Begin, Commit, Drop, Undo};
ghost use Rattle.host.specs.View.{View, Sound, Begins, Moves, begin_checks, move_checks};

use crate::declines::declined;
use crate::keys::{RowKey, is_row};
use values::{Cause, Entry, Fault, HostState, Kind};

/// A place where steps write their rows.
pub trait Host {
    // what every host shows
    ghost view: { Self → View };

    // what a call, with its answer, makes of a host in the host's own terms
    ghost makes: { Self → Call → Result (Unit {0}) Fault → Self → Type 0 };

    // what calls, one or many, can make of a host in its own terms
    ghost goes: { Self → Self → Type 0 };

    // whether each part of a host knows, of given rows, exactly those that belong there
    ghost holds: { Self → Known → Type 0 };

    /// Begins a row that the host does not know yet: from now on it is open, with this entry.
    fn begin(&mut self, row: RowKey, entry: Entry) -> Result<(), Fault>
        ensures does { Begins (view self.old) row entry result (view self.new) }
        ensures made { makes self.old (Begin row entry) result self.new }
        ensures goes { goes self.old self.new };

    /// Confirms an open row: it stands.
    fn commit(&mut self, row: RowKey) -> Result<(), Fault>
        ensures does { Moves Open Standing (view self.old) row result (view self.new) }
        ensures made { makes self.old (Commit row) result self.new }
        ensures goes { goes self.old self.new };

    /// Gives an open row up: it is void.
    fn drop_row(&mut self, row: RowKey) -> Result<(), Fault>
        ensures does { Moves Open Void (view self.old) row result (view self.new) }
        ensures made { makes self.old (Drop row) result self.new }
        ensures goes { goes self.old self.new };

    /// Takes a standing row back: it is undone.
    fn undo(&mut self, row: RowKey) -> Result<(), Fault>
        ensures does { Moves Standing Reversed (view self.old) row result (view self.new) }
        ensures made { makes self.old (Undo row) result self.new }
        ensures goes { goes self.old self.new };

    /// Whether the host is shut.
    fn is_shut(&self) -> bool
        ensures { result ≡ (view self.now).shut };

    /// The room for a kind: so many rows of it can still begin.
    fn room(&self, kind: Kind) -> u16
        ensures { result ≡ (view self.now).room kind };

    /// The state of a row.
    fn state(&self, row: RowKey) -> HostState
        ensures { result ≡ (view self.now).state row };

    /// The entry that a row began with, if it began.
    fn entry(&self, row: RowKey) -> Option<Entry>
        ensures { result ≡ (view self.now).entry row };

    /// The checks before a row of a kind is begun: whether the host is open, does not know the row, and has room.
    fn may_begin(&self, row: RowKey, kind: Kind) -> Result<(), Fault>
        ensures { result ≡ answer (first_fault (begin_checks (view self.now) row kind)) tt }
    {
        self.may_move(row, HostState::Unknown)?;
        if self.room(kind) == 0 {
            return declined(Cause::NoRoom, row);
        }
        Ok(())
    }

    /// The checks before a row is turned from a state to another: whether the host is open, and the row in that state.
    fn may_move(&self, row: RowKey, from: HostState) -> Result<(), Fault>
        ensures { result ≡ answer (first_fault (move_checks from (view self.now) row)) tt }
    {
        if self.is_shut() {
            return declined(Cause::ShutHost, row);
        }
        if !is_row(row) || self.state(row) != from {
            return declined(Cause::OtherState, row);
        }
        Ok(())
    }

    ghost sound: { (h : Self) → Sound (view h) };

    ghost stays: { (h : Self) → goes h h };

    ghost goes_on: { (h i j : Self) → goes h i → goes i j → goes h j };

    ghost whole: { HoldsWhatItShows view holds };

    ghost empty: { HoldsNothingFresh view holds };

    ghost stays_sorted: { StaysSorted view holds goes };
}

/// A host that can be shut and opened between calls.
pub trait Controls: Host {
    type Command;

    // the fault with which a command is declined, if it is
    ghost declines: { Self → Self.Command → Option Fault };

    // whether the host is shut after a command that is obeyed
    ghost shuts: { Self → Self.Command → Bool };

    // what a command that is obeyed leaves of the host before it in the host after it
    ghost leaves: { Self → Self.Command → Self → Type 0 };

    /// Obeys a command, which changes nothing that is shown but whether the host is shut, and says whether it is shut now;
    /// or declines it, and changes nothing at all.
    fn control(&mut self, command: &Self::Command) -> Result<bool, Fault>
        ensures answers { result ≡ answer (declines self.old command.now) (shuts self.old command.now) }
        ensures shows { Self.Host.view self.new
            ≡ shown_after (declines self.old command.now) (shuts self.old command.now) (Self.Host.view self.old) }
        ensures left { Controlled (declines self.old command.now) leaves self.old command.now self.new };

    ghost moves_no_row: { MovesNoRow Self.Host.holds leaves };
}

/// The only command of a host that nothing shuts or opens: it changes nothing.
#[derive(Clone, Copy, PartialEq, Eq, Debug, Drop)]
pub struct NoCommand;
