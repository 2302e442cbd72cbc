// The lines of a journal: what each says, and the order that they keep.
ghost use Rattle.std.specs.Prelude.{◌≡◌, OnErr, OnOk};
ghost use Rattle.std.specs.Option.{option_map};
ghost use Rattle.journal.specs.Text.{Told, ToldUnlessFull, words};
ghost use Rattle.journal.specs.Calls.{call_word as call_named};
ghost use Rattle.journal.specs.Settings.{keyword as named, spoken, stated, said, meant, meant_if};
ghost use Rattle.journal.specs.Settings.{sofar, no_settings, require, after_serial, before_calls, admitted, stored};
ghost use Rattle.journal.specs.Settings.{said_after, at_line, after_line, completed, contents, Parsed, journal};

use crate::calls::{call, call_word};
use crate::events::{HostEvent, Line};
use crate::text::{
    check_hex, decode, is_clean, is_comment, only_word, short_number, split_word, unended,
};
use crate::{Journal, LineError, ParseError, Unreadable, Wrong};
use std::alloc::{AllocError, Global};

// The words that a setting may begin with.
#[derive(Clone, Copy, Drop)]
pub(crate) enum Keyword {
    Process,
    Serial,
    Scores,
    Ledger,
}

// What a line says that is neither empty nor a comment; the process is still in hex digits.
#[derive(Drop)]
pub(crate) enum Statement<'a> {
    Process(&'a [u8]),
    Serial(u16),
    Scores(u16),
    Ledger(u16),
    Call(HostEvent),
}

fn keyword_of(word: &[u8]) -> Option<Keyword>
    ensures { result ≡ named word.now }
{
    match word {
        b"process" => Some(Keyword::Process),
        b"serial" => Some(Keyword::Serial),
        b"scores" => Some(Keyword::Scores),
        b"ledger" => Some(Keyword::Ledger),
        _ => None,
    }
}

// A line with this keyword, by what follows it.
fn setting(keyword: Keyword, rest: &[u8]) -> Result<Statement<'_>, Wrong>
    ensures { Told result meant (spoken keyword (words rest.now)) }
{
    let word = only_word(rest)?;
    match keyword {
        Keyword::Process => {
            check_hex(word)?;
            Ok(Statement::Process(word))
        }
        Keyword::Serial => Ok(Statement::Serial(short_number(word)?)),
        Keyword::Scores => Ok(Statement::Scores(short_number(word)?)),
        Keyword::Ledger => Ok(Statement::Ledger(short_number(word)?)),
    }
}

// A line with this first word, by what follows it.
fn stated<'a>(heap: Global, word: &[u8], rest: &'a [u8]) -> Result<Statement<'a>, LineError>
    ensures { ToldUnlessFull result meant (stated (named word.now) (call_named word.now) (words rest.now)) }
{
    if let Some(keyword) = keyword_of(word) {
        return Ok(setting(keyword, rest)?);
    }
    let word = call_word(word).ok_or(Wrong::UnknownWord)?;
    Ok(Statement::Call(call(heap, word, rest)?))
}

// What a line says; `None` if it is empty or a comment.
fn read_line(heap: Global, line: &[u8]) -> Result<Option<Statement<'_>>, LineError>
    ensures { ToldUnlessFull result meant_if (said line.now) }
{
    let Some((word, rest)) = split_word(line) else {
        return Ok(None);
    };
    if is_comment(word) {
        return Ok(None);
    }
    if !is_clean(line) {
        return Err(Wrong::StrayByte.into());
    }
    Ok(Some(stated(heap, word, rest)?))
}

// The settings and the calls that were read so far; the process and each call with the number of its line.
// Each setting has its field: where it may stand, and what holds without it, is not the same for all.
#[derive(Drop)]
pub(crate) struct Draft {
    process: Option<(usize, Vec<u8>)>,
    serial: Option<u16>,
    scores: Option<u16>,
    ledger: Option<u16>,
    lines: Vec<Line>,
}

// Refuses where the condition fails.
fn require(condition: bool, wrong: Wrong) -> Result<(), Wrong>
    ensures { result ≡ require condition wrong }
{
    condition.then_some(()).ok_or(wrong)
}

impl Draft {
    fn new(heap: Global) -> Draft
        ensures { sofar result ≡ no_settings }
    {
        Draft {
            process: None,
            serial: None,
            scores: None,
            ledger: None,
            lines: Vec::new(heap),
        }
    }

    // Refuses a line before process and serial.
    fn after_serial(&self) -> Result<(), Wrong>
        ensures { result ≡ after_serial (sofar self.now) }
    {
        require(self.process.is_some(), Wrong::MissingProcess)?;
        require(self.serial.is_some(), Wrong::MissingSerial)
    }

    // Refuses a setting after a call, also.
    fn before_calls(&self) -> Result<(), Wrong>
        ensures { result ≡ before_calls (sofar self.now) }
    {
        self.after_serial()?;
        require(self.lines.is_empty(), Wrong::LateSetting)
    }

    // Refuses a line out of its place.
    fn admit(&self, statement: &Statement<'_>) -> Result<(), Wrong>
        ensures { result ≡ admitted (meant statement.now) (sofar self.now) }
    {
        match statement {
            Statement::Process(_) => require(self.process.is_none(), Wrong::Repeated),
            Statement::Serial(_) => {
                require(self.process.is_some(), Wrong::MissingProcess)?;
                require(self.serial.is_none(), Wrong::Repeated)
            }
            Statement::Scores(_) => {
                self.before_calls()?;
                require(self.scores.is_none(), Wrong::Repeated)
            }
            Statement::Ledger(_) => {
                self.before_calls()?;
                require(self.ledger.is_none(), Wrong::Repeated)
            }
            Statement::Call(_) => self.after_serial(),
        }
    }

    // Keeps what a line says.
    fn store(
        &mut self,
        heap: Global,
        line: usize,
        statement: Statement<'_>,
    ) -> Result<(), AllocError>
        ensures kept { OnOk result (sofar self.new ≡ stored line (meant statement.entry) (sofar self.old)) }
        ensures same { OnErr result (sofar self.new ≡ sofar self.old) }
    {
        match statement {
            Statement::Process(digits) => self.process = Some((line, decode(heap, digits)?)),
            Statement::Serial(n) => self.serial = Some(n),
            Statement::Scores(n) => self.scores = Some(n),
            Statement::Ledger(n) => self.ledger = Some(n),
            Statement::Call(event) => self.lines.push(Line {
                number: line,
                event,
            })?,
        }
        Ok(())
    }

    // What a line says, where it may stand here.
    fn read<'a>(&self, heap: Global, line: &'a [u8]) -> Result<Option<Statement<'a>>, LineError>
        ensures { ToldUnlessFull result meant_if (said_after (sofar self.now) line.now) }
    {
        let statement = read_line(heap, line)?;
        if let Some(statement) = &statement {
            self.admit(statement)?;
        }
        Ok(statement)
    }

    // Reads one line more.
    fn take(&mut self, heap: Global, number: usize, line: &[u8]) -> Result<(), ParseError>
        ensures { Parsed result (λ _. sofar self.new) (after_line number line.now (sofar self.old)) }
    {
        let statement = self.read(heap, line).map_err(|error| error.at(number))?;
        if let Some(statement) = statement {
            self.store(heap, number, statement)?;
        }
        Ok(())
    }

    // The journal, if nothing misses; `line` is one past the last.
    fn complete(self, line: usize) -> Result<Journal, Unreadable>
        ensures { Told result contents (at_line line (completed (sofar self))) }
    {
        let Draft {
            process,
            serial,
            scores,
            ledger,
            lines,
        } = self;
        let (process_line, process) = process.ok_or(Wrong::MissingProcess.at(line))?;
        let serial = serial.ok_or(Wrong::MissingSerial.at(line))?;
        Ok(Journal {
            process,
            process_line,
            serial,
            scores: scores.unwrap_or(256),
            ledger: ledger.unwrap_or(768),
            lines,
        })
    }
}

/// Reads the whole text of a journal: the settings and the calls, or the first line that cannot be read and what is wrong with it.
pub fn parse(heap: Global, text: &[u8]) -> Result<Journal, ParseError>
    ensures { Parsed result contents (journal text.now) }
{
    let mut draft = Draft::new(heap);
    // What is missing is told at the line after the last: the number is used after the loop.
    let mut line = 1;
    for ended in text.split_inclusive(|b| *b == b'\n') {
        draft.take(heap, line, unended(ended))?;
        line += 1;
    }
    Ok(draft.complete(line)?)
}
