// Reading the lines after the settings: calls, other lent memory, and commands for the hosts.
ghost use Rattle.std.specs.Prelude.{◌≡◌};
ghost use Rattle.journal.specs.Text.{Told, ToldUnlessFull, number as number_said, words};
ghost use Rattle.journal.specs.Calls.{call_of, call_word as named};
ghost use Rattle.journal.specs.Calls.{started, only_number, only_ticket, mode_named, mode, undone, only_turned, sizes, called};

use crate::events::HostEvent;
use crate::fields::{amount, command, kind, rows, ticket};
use crate::text::{
    five_words, four_words, no_words, number, only_word, short_number, split_word, two_words,
};
use crate::{LineError, Wrong};
use club::{Command, Turn};
use sheet::{Event, Sizes};
use std::alloc::Global;
use values::{Entry, Mode, TicketNumber};

// The words that a line after the settings may begin with.
#[derive(Clone, Copy, Drop)]
pub(crate) enum CallWord {
    Start,
    End,
    Abort,
    Undo,
    Finish,
    Park,
    Resume,
    Listing,
    Reply,
    Shut,
    Open,
    Memory,
}

pub(crate) fn call_word(word: &[u8]) -> Option<CallWord>
    ensures { result ≡ named word.now }
{
    match word {
        b"start" => Some(CallWord::Start),
        b"end" => Some(CallWord::End),
        b"abort" => Some(CallWord::Abort),
        b"undo" => Some(CallWord::Undo),
        b"finish" => Some(CallWord::Finish),
        b"park" => Some(CallWord::Park),
        b"resume" => Some(CallWord::Resume),
        b"listing" => Some(CallWord::Listing),
        b"reply" => Some(CallWord::Reply),
        b"shut" => Some(CallWord::Shut),
        b"open" => Some(CallWord::Open),
        b"memory" => Some(CallWord::Memory),
        _ => None,
    }
}

// The functions below read what follows a line's first word.

fn start(heap: Global, rest: &[u8]) -> Result<HostEvent, LineError>
    ensures { ToldUnlessFull result call_of (started (words rest.now)) }
{
    let (step, predecessors, of, number) = four_words(rest)?;
    let step = short_number(step)?;
    let predecessors = rows(heap, predecessors)?;
    let kind = kind(of)?;
    let number = amount(number)?;
    Ok(Event::Start {
        step,
        predecessors,
        entry: Entry { kind, number },
    })
}

fn only_row(rest: &[u8]) -> Result<u16, Wrong>
    ensures { result ≡ only_number 65535 (words rest.now) }
{
    short_number(only_word(rest)?)
}

fn only_place(rest: &[u8]) -> Result<usize, Wrong>
    ensures { result ≡ only_number 4294967295 (words rest.now) }
{
    Ok(number(u32::MAX, only_word(rest)?)? as usize)
}

fn only_ticket(rest: &[u8]) -> Result<TicketNumber, Wrong>
    ensures { result ≡ only_ticket (words rest.now) }
{
    ticket(only_word(rest)?)
}

fn only_command(turn: Turn, rest: &[u8]) -> Result<Command, Wrong>
    ensures { result ≡ only_turned turn (words rest.now) }
{
    command(turn, only_word(rest)?)
}

// How far an abort rolls back, by its next word and what follows that.
fn mode_named(word: &[u8], rest: &[u8]) -> Result<Mode, Wrong>
    ensures { result ≡ mode_named word.now (words rest.now) }
{
    if word == b"complete".as_slice() {
        no_words(rest)?;
        return Ok(Mode::Complete);
    }
    if word == b"partial".as_slice() {
        return Ok(Mode::Partial(only_row(rest)?));
    }
    Err(Wrong::NotAMode)
}

fn mode(rest: &[u8]) -> Result<Mode, Wrong>
    ensures { result ≡ mode (words rest.now) }
{
    let (word, rest) = split_word(rest).ok_or(Wrong::TooFewWords)?;
    mode_named(word, rest)
}

fn undo(rest: &[u8]) -> Result<HostEvent, Wrong>
    ensures { Told result call_of (undone (words rest.now)) }
{
    let (of, row) = two_words(rest)?;
    let ticket = ticket(of)?;
    let row = short_number(row)?;
    Ok(Event::Undo { ticket, row })
}

fn sizes(rest: &[u8]) -> Result<Sizes, Wrong>
    ensures { result ≡ sizes (words rest.now) }
{
    let (column, line, arrows, restarts, buffer) = five_words(rest)?;
    Ok(Sizes {
        column: length(column)?,
        line: length(line)?,
        arrows: length(arrows)?,
        restarts: length(restarts)?,
        buffer: length(buffer)?,
    })
}

// A length of lent memory.
fn length(word: &[u8]) -> Result<usize, Wrong>
    ensures { result ≡ number_said 1000000 word.now }
{
    Ok(number(1_000_000, word)? as usize)
}

pub(crate) fn call(heap: Global, word: CallWord, rest: &[u8]) -> Result<HostEvent, LineError>
    ensures { ToldUnlessFull result call_of (called word (words rest.now)) }
{
    match word {
        CallWord::Start => start(heap, rest),
        CallWord::End => Ok(Event::End {
            row: only_row(rest)?,
        }),
        CallWord::Abort => Ok(Event::Abort { mode: mode(rest)? }),
        CallWord::Undo => Ok(undo(rest)?),
        CallWord::Finish => Ok(Event::Finish {
            ticket: only_ticket(rest)?,
        }),
        CallWord::Park => Ok(Event::Park {
            ticket: only_ticket(rest)?,
        }),
        CallWord::Resume => {
            no_words(rest)?;
            Ok(Event::Resume)
        }
        CallWord::Listing => {
            no_words(rest)?;
            Ok(Event::Listing)
        }
        CallWord::Reply => Ok(Event::Reply {
            place: only_place(rest)?,
        }),
        CallWord::Shut => Ok(Event::Control {
            command: only_command(Turn::Shut, rest)?,
        }),
        CallWord::Open => Ok(Event::Control {
            command: only_command(Turn::Open, rest)?,
        }),
        CallWord::Memory => Ok(Event::Lend {
            sizes: sizes(rest)?,
        }),
    }
}
