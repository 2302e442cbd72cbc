// Journals: from the text of a journal to its settings and its events, or to what is wrong with it.
#![tactic(auto)]

ghost use Rattle.std.specs.Prelude.{◌≡◌};
ghost use Rattle.journal.specs.declared.LineError.TheVariants.{Wrong as WrongLine, Memory as NoMemory};
ghost use Rattle.journal.specs.declared.ParseError.TheVariants.{Unreadable as UnreadableLine, Memory};

mod calls;
mod events;
mod fields;
mod settings;
mod text;
mod wrongs;

pub use events::{HostEvent, Line};
pub use settings::parse;
use std::alloc::AllocError;

/// What makes a line unreadable.
#[derive(Clone, Copy, PartialEq, Eq, Debug, Drop)]
pub enum Wrong {
    StrayByte,
    UnknownWord,
    TooFewWords,
    TooManyWords,
    NotANumber,
    NumberTooLarge,
    NotHex,
    OddHex,
    MissingProcess,
    MissingSerial,
    Repeated,
    MissingNumber,
    NotATicket,
    NotAKind,
    NotAMode,
    NotAHost,
    LateSetting,
}

/// A line that cannot be read: its number, from 1, and what is wrong with it.
#[derive(Clone, Copy, PartialEq, Eq, Debug, Drop)]
pub struct Unreadable {
    pub line: usize,
    pub wrong: Wrong,
}

/// Why a journal was not read: a line that cannot be read, or no memory.
#[derive(Clone, Copy, PartialEq, Eq, Debug, Drop)]
pub enum ParseError {
    Unreadable(Unreadable),
    Memory(AllocError),
}

// Why one line was not read: what is wrong with it, or no memory.
#[derive(Clone, Copy, Drop)]
pub(crate) enum LineError {
    Wrong(Wrong),
    Memory(AllocError),
}

impl From<Wrong> for LineError {
    ghost from_gives = { λ wrong error. error ≡ WrongLine wrong };

    fn from(wrong: Wrong) -> LineError {
        LineError::Wrong(wrong)
    }
}

impl From<AllocError> for LineError {
    ghost from_gives = { λ e error. error ≡ NoMemory e };

    fn from(error: AllocError) -> LineError {
        LineError::Memory(error)
    }
}

impl From<Unreadable> for ParseError {
    ghost from_gives = { λ unreadable error. error ≡ UnreadableLine unreadable };

    fn from(unreadable: Unreadable) -> ParseError {
        ParseError::Unreadable(unreadable)
    }
}

impl From<AllocError> for ParseError {
    ghost from_gives = { λ e error. error ≡ Memory e };

    fn from(error: AllocError) -> ParseError {
        ParseError::Memory(error)
    }
}

/// A journal: the stored process and the number of its line, the settings, and the calls in order.
#[derive(Drop)]
pub struct Journal {
    pub process: Vec<u8>,
    pub process_line: usize,
    pub serial: u16,
    pub scores: u16,
    pub ledger: u16,
    pub lines: Vec<Line>,
}
