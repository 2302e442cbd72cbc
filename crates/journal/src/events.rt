// What a journal says after its settings: events in a competition with the program's hosts.
ghost use Rattle.std.specs.Prelude.{◌≡◌};
ghost use Rattle.journal.specs.Calls.{call_of, call_text, turn_text};

use club::{Command, Turn, turn_of};
use sheet::Event;

/// What may happen in a competition with these hosts.
pub type HostEvent = Event<Command>;

/// A line after the settings: its number, and what it says.
#[derive(Drop)]
pub struct Line {
    pub number: usize,
    pub event: HostEvent,
}

fn turn_word(turn: Turn) -> &'static str
    ensures { result.now ≡ turn_text turn }
{
    match turn {
        Turn::Open => "open",
        Turn::Shut => "shut",
    }
}

impl Line {
    /// The line's first word.
    pub fn word(&self) -> &'static str
        ensures { result.now ≡ call_text (call_of self.now.event) }
    {
        match &self.event {
            Event::Start { .. } => "start",
            Event::End { .. } => "end",
            Event::Abort { .. } => "abort",
            Event::Undo { .. } => "undo",
            Event::Finish { .. } => "finish",
            Event::Park { .. } => "park",
            Event::Resume => "resume",
            Event::Listing => "listing",
            Event::Reply { .. } => "reply",
            Event::Lend { .. } => "memory",
            Event::Control { command } => turn_word(turn_of(command)),
        }
    }
}
