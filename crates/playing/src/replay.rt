// A whole journal: it is read, its process is read, its calls are made, and what came of it is told.
ghost use Rattle.std.specs.Prelude.{IfOk};
ghost use Rattle.playing.specs.Run.{Ran, ProcessTold};
ghost use Rattle.journal.specs.Settings.{journal, contents};

use crate::names::step_names;
use crate::outcomes::Outcome;
use crate::play::Play;
use journal::{Journal, ParseError, parse};
use process::tables::Tables;
use process::{COLUMN, LINE};
use std::alloc::{AllocError, Global};

/// Reads the text of a journal, makes its calls, and tells what came of it: what to print, what to report, and whether it was
/// replayed. The balance is told where the treasurer asks for it.
pub fn run(heap: Global, text: &[u8], treasurer: bool) -> Result<Outcome, AllocError>
    ensures { IfOk result (Ran treasurer (journal text.now)) }
{
    match parse(heap, text) {
        Ok(journal) => replay(heap, &journal, treasurer),
        Err(ParseError::Unreadable(unreadable)) => Outcome::unread(heap, &unreadable),
        Err(ParseError::Memory(error)) => Err(error),
    }
}

// Replays a journal from a blank sheet.
fn replay(heap: Global, journal: &Journal, treasurer: bool) -> Result<Outcome, AllocError>
    ensures { IfOk result (ProcessTold treasurer (contents journal.now)) }
{
    let stored = journal.process.as_slice();
    let tables = Tables::new(heap)?;
    let mut column = [0; COLUMN];
    let mut line = [0; LINE];
    match process::read(stored, tables, &mut column, &mut line) {
        Ok(process) => {
            let names = step_names(heap, stored, process.steps().len() + 1)?;
            let mut play = Play::of(heap, journal, process)?;
            play.run(heap, &journal.lines)?;
            play.outcome(heap, names, treasurer)
        }
        Err(fault) => Outcome::declined(heap, journal.process_line, fault),
    }
}
