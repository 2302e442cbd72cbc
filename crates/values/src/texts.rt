// A fault in words.
ghost use Rattle.std.specs.Prelude.{◌≡◌, Some};
ghost use Rattle.values.specs.Texts.{reason, spelled};

use crate::{Cause, Fault};
use std::fmt;

impl Cause {
    /// The cause in words that a secretary understands.
    // One fixed text for each cause.
    pub fn reason(self) -> &'static str
        ensures { result.now ≡ reason self }
    {
        match self {
            Cause::WrongLength => "the stored process ends too early or has bytes left over",
            Cause::WrongForm => "the form number is not 1 or a spare bit is set",
            Cause::WrongValue => "a field is out of range or the arrows are out of order",
            Cause::WrongStep => "a step has more than 8 arrows in or out or cannot be reached",
            Cause::ShortMemory => "the memory lent to the call is too short",
            Cause::FullSheet => "the sheet is full",
            Cause::WrongPhase => "the sheet is in another phase",
            Cause::NoSuch => "there is no such step or the row is in another state",
            Cause::WrongCount => "the number of predecessors is wrong or rows are live already",
            Cause::UnfitPredecessor => "a predecessor does not fit this step",
            Cause::UsedExit => "the exit of a predecessor is used already",
            Cause::UnlawfulEntry => "the entry has another kind or is out of range",
            Cause::ShutHost => "the host is shut",
            Cause::NoRoom => "the host has no room for this kind",
            Cause::OtherState => "the row is in another state at the host",
            Cause::OtherTicket => "the ticket is of another sheet or rollback",
            Cause::DueAfter => "a row after this one is still due",
            Cause::StillDue => "rows are still due",
            Cause::NothingLive => "no row is live",
        }
    }
}

impl fmt::Display for Fault {
    ghost output = { λ x. Some (spelled x) };

    fn fmt<W: fmt::Write>(&self, f: &mut fmt::Formatter<W>) -> fmt::Result {
        let cause = u8::from(self.cause);
        let layer = u8::from(self.layer);
        let place = self.place;
        let reason = self.cause.reason();
        write!(f, "{cause} {layer} {place} - {reason}")
    }
}
