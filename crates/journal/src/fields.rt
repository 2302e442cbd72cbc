// The words of a call's line: tickets, rows, kinds, entries' numbers and hosts.
ghost use Rattle.std.specs.Prelude.{◌≡◌, ◌==◌, position};
ghost use Rattle.journal.specs.Text.{ToldUnlessFull};
ghost use Rattle.journal.specs.Calls.{ticket, rows, kind, signed, amount, turned};

use crate::text::{number, short_number};
use crate::{LineError, Wrong};
use club::{Book, Command, Turn, command_for};
use std::alloc::{AllocError, Global};
use values::{Kind, TicketNumber};

// Where the first slash of a word is.
fn slash(word: &[u8]) -> Option<usize>
    ensures { result ≡ position (λ b. b == 47) word.now }
{
    word.iter().position(|b| *b == b'/')
}

// The two numbers that a ticket shows.
pub(crate) fn ticket(word: &[u8]) -> Result<TicketNumber, Wrong>
    ensures { result ≡ ticket word.now }
{
    let slash = slash(word).ok_or(Wrong::NotATicket)?;
    let serial = short_number(&word[..slash])?;
    let rollback = short_number(&word[slash + 1..])?;
    Ok(TicketNumber { serial, rollback })
}

// The rows that a word lists.
pub(crate) fn rows(heap: Global, word: &[u8]) -> Result<Vec<u16>, LineError>
    ensures { ToldUnlessFull result (λ v. v.items) (rows word.now) }
{
    let mut rows = Vec::new(heap);
    if word == b"-".as_slice() {
        return Ok(rows);
    }
    for part in word.split(|b| *b == b',') {
        rows.push(short_number(part)?).map_err(AllocError::from)?;
    }
    Ok(rows)
}

pub(crate) fn kind(word: &[u8]) -> Result<Kind, Wrong>
    ensures { result ≡ kind word.now }
{
    match word {
        b"score" => Ok(Kind::Score),
        b"fee" => Ok(Kind::Fee),
        _ => Err(Wrong::NotAKind),
    }
}

// A signed number of 32 bits.
fn signed(word: &[u8]) -> Result<i32, Wrong>
    ensures { result ≡ signed word.now }
{
    match word {
        [b'-', digits @ ..] => Ok(-i64::from(number(2_147_483_648, digits)?) as i32),
        _ => Ok(number(2_147_483_647, word)? as i32),
    }
}

// The number of an entry; `None` if it is empty.
pub(crate) fn amount(word: &[u8]) -> Result<Option<i32>, Wrong>
    ensures { result ≡ amount word.now }
{
    match word {
        b"-" => Ok(None),
        _ => Ok(Some(signed(word)?)),
    }
}

// The command that opens or shuts the named host.
pub(crate) fn command(turn: Turn, host: &[u8]) -> Result<Command, Wrong>
    ensures { result ≡ turned turn host.now }
{
    match host {
        b"ledger" => Ok(command_for(turn, Book::Ledger)),
        b"scores" => Ok(command_for(turn, Book::Scores)),
        _ => Err(Wrong::NotAHost),
    }
}
