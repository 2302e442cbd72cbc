// What is wrong with a line, in words.
ghost use Rattle.std.specs.Prelude.{◌≡◌, Some, codes};
ghost use Rattle.journal.specs.Wrongs.{wrong_text, report, failure};
ghost use Rattle.journal.specs.Settings.{error_at};

use crate::{LineError, ParseError, Unreadable, Wrong};
use std::error::Error;
use std::fmt;

impl Wrong {
    // The same of a line with this number.
    pub(crate) fn at(self, line: usize) -> Unreadable
        ensures line { result.line ≡ line }
        ensures wrong { result.wrong ≡ self }
    {
        Unreadable { line, wrong: self }
    }
}

impl LineError {
    // The same of a line with this number.
    pub(crate) fn at(self, line: usize) -> ParseError
        ensures { result ≡ error_at line self }
    {
        match self {
            LineError::Wrong(wrong) => ParseError::Unreadable(wrong.at(line)),
            LineError::Memory(error) => ParseError::Memory(error),
        }
    }
}

impl fmt::Display for Wrong {
    ghost output = { λ x. Some (wrong_text x) };

    fn fmt<W: fmt::Write>(&self, f: &mut fmt::Formatter<W>) -> fmt::Result {
        f.write_str(match *self {
            Wrong::StrayByte => "a byte is neither printable ASCII nor a space nor a tab",
            Wrong::UnknownWord => "the first word is unknown",
            Wrong::TooFewWords => "a word is missing",
            Wrong::TooManyWords => "there is a word too many",
            Wrong::NotANumber => "a number has a character that is no decimal digit",
            Wrong::NumberTooLarge => "a number is too large",
            Wrong::NotHex => "the process has a character that is no hex digit",
            Wrong::OddHex => "the process has an odd number of hex digits",
            Wrong::MissingProcess => "the process must come first",
            Wrong::MissingSerial => "the serial must come straight after the process",
            Wrong::Repeated => "this setting was given before",
            Wrong::MissingNumber => "a number is missing in a list or a ticket",
            Wrong::NotATicket => "a ticket has no slash between its numbers",
            Wrong::NotAKind => "the kind is neither score nor fee",
            Wrong::NotAMode => "an abort is neither complete nor partial",
            Wrong::NotAHost => "the host is neither ledger nor scores",
            Wrong::LateSetting => "a setting comes after a call",
        })
    }
}

impl fmt::Display for Unreadable {
    ghost output = { λ x. Some (report x) };

    fn fmt<W: fmt::Write>(&self, f: &mut fmt::Formatter<W>) -> fmt::Result {
        let Unreadable { line, wrong } = *self;
        write!(f, "line {line}: {wrong}")
    }
}

impl fmt::Display for ParseError {
    ghost output = { λ x. Some (failure x) };

    fn fmt<W: fmt::Write>(&self, f: &mut fmt::Formatter<W>) -> fmt::Result {
        match *self {
            ParseError::Unreadable(unreadable) => write!(f, "{unreadable}"),
            ParseError::Memory(_) => write!(f, "memory ran out"),
        }
    }
}

impl Error for ParseError {}
