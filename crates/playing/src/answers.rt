// The answers to the lines of a journal, and how they are printed.
ghost use Rattle.std.specs.Prelude.{Some};
ghost use Rattle.playing.specs.Spelled.{answer_text, answer_line};

use crate::lists::{Hex, Parted};
use std::fmt;
use values::{Fault, RowArrow, TicketNumber};

/// What a line of the journal was answered.
// It is printed by its `Display`, a fault as any other answer.
#[derive(Clone, Copy, Drop)]
pub enum Answer<'a> {
    Process {
        steps: usize,
        arrows: usize,
    },
    /// A row was started, with this number.
    Row(u16),
    Done,
    Ticket(TicketNumber),
    Listed {
        arrows: &'a [RowArrow],
        restarts: &'a [u16],
    },
    Reply(&'a [u8]),
    Declined(Fault),
}

impl fmt::Display for Answer<'_> {
    ghost output = { λ x. Some (answer_text x) };

    fn fmt<W: fmt::Write>(&self, f: &mut fmt::Formatter<W>) -> fmt::Result {
        match *self {
            Answer::Process { steps, arrows } => write!(f, "steps {steps} arrows {arrows}"),
            Answer::Row(row) => write!(f, "row {row}"),
            Answer::Done => write!(f, "done"),
            Answer::Ticket(TicketNumber { serial, rollback }) => {
                write!(f, "ticket {serial}/{rollback}")
            }
            Answer::Listed { arrows, restarts } => {
                let arrows = Parted(arrows);
                let restarts = Parted(restarts);
                write!(f, "arrows {arrows} restart {restarts}")
            }
            Answer::Reply(bytes) => {
                let bytes = Hex(bytes);
                write!(f, "{bytes}")
            }
            Answer::Declined(fault) => write!(f, "declined {fault}"),
        }
    }
}

// The line that is printed of an answer: the number of the journal's line, its first word, and the answer.
#[derive(Clone, Copy, Drop)]
pub(crate) struct AnswerLine<'a> {
    pub(crate) line: usize,
    pub(crate) word: &'a str,
    pub(crate) answer: Answer<'a>,
}

impl fmt::Display for AnswerLine<'_> {
    ghost output = { λ x. Some (answer_line x.line x.word.now x.answer) };

    fn fmt<W: fmt::Write>(&self, f: &mut fmt::Formatter<W>) -> fmt::Result {
        let AnswerLine { line, word, answer } = *self;
        write!(f, "{line} {word}: {answer}\n")
    }
}
