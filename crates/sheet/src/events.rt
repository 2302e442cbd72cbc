// Events as values, and what comes of them.
ghost use Rattle.std.specs.Prelude.{◌≡◌, min, length};
ghost use Rattle.sheet.specs.Happenings.{told_by};
ghost use Rattle.sheet.specs.Runs.{Ended};

use std::alloc::AllocError;
use values::{Answer, Entry, Fault, Mode, TicketNumber};

/// The lengths of the memory that is lent to calls.
#[derive(Clone, Copy, PartialEq, Eq, Debug, Drop)]
pub struct Sizes {
    /// Bytes of the scratch column.
    pub column: usize,
    /// Numbers of the line.
    pub line: usize,
    /// Places of the table of arrows.
    pub arrows: usize,
    /// Places of the table of restart points.
    pub restarts: usize,
    /// Bytes of the buffer for replies.
    pub buffer: usize,
}

/// What may happen in a competition: a call, other memory that is lent from now on, or a command for the host.
#[derive(PartialEq, Eq, Debug, Drop)]
pub enum Event<C> {
    Start {
        step: u16,
        predecessors: Vec<u16>,
        entry: Entry,
    },
    End {
        row: u16,
    },
    Abort {
        mode: Mode,
    },
    Undo {
        ticket: TicketNumber,
        row: u16,
    },
    Finish {
        ticket: TicketNumber,
    },
    Park {
        ticket: TicketNumber,
    },
    Resume,
    Listing,
    Reply {
        place: usize,
    },
    /// Memory of these lengths, all zero.
    Lend {
        sizes: Sizes,
    },
    Control {
        command: C,
    },
}

/// What came of an event: its answer, whether the host was shut then, and the fault with which the host declined a command.
#[derive(Clone, Copy, PartialEq, Eq, Debug, Drop)]
pub struct Taken {
    /// Of a command always "done": whether the host declined it stands beside.
    pub answer: Answer,
    pub shut: bool,
    pub refused: Option<Fault>,
}

impl Taken {
    /// A place for what comes of an event.
    pub const PLACE: Taken = Taken {
        answer: Answer::Done,
        shut: false,
        refused: None,
    };

    /// What is told of the event in one: the fault of a declined command, or else the answer.
    pub fn told(&self) -> Answer
        ensures { result ≡ told_by self.now }
    {
        self.refused.map_or(self.answer, Answer::Declined)
    }
}

/// Why no more events of a list were taken: there were no more, no more places to tell of them, or no memory for the next one.
#[derive(Clone, Copy, PartialEq, Eq, Debug, Drop)]
pub enum End {
    Events,
    Places,
    /// The next event lends other memory.
    Memory(AllocError),
}

impl End {
    // Of events that were taken as far as so many places go.
    pub(crate) fn at_most<C>(events: &[Event<C>], places: usize) -> End
        ensures { Ended result events.now places (min (length events.now) places) }
    {
        if events.len() <= places {
            End::Events
        } else {
            End::Places
        }
    }
}

/// How far the events of a list were taken.
#[derive(Clone, Copy, PartialEq, Eq, Debug, Drop)]
pub struct Replayed {
    /// How many were taken. So many of the lent places say what came of each.
    pub taken: usize,
    pub end: End,
}
