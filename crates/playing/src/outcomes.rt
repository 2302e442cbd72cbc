// What becomes of a journal: what is printed, what is reported, and whether it was replayed.
ghost use Rattle.std.specs.Prelude.{◌≡◌, IfOk, codes, string_bytes};
ghost use Rattle.process.specs.Accepted.{tables_of};
ghost use Rattle.playing.specs.Outcomes.{shown, unread, declined, process_line, replayed};
ghost use Rattle.playing.specs.Summaries.{summary_shown};

use crate::answers::{Answer, AnswerLine};
use crate::summary::Summary;
use journal::Unreadable;
use process::Process;
use std::alloc::{AllocError, Global};
use values::Fault;

/// What goes to standard output and to standard error, and whether the journal was accepted, so that the status is 0.
#[derive(Drop)]
pub struct Outcome {
    pub printed: String,
    pub reported: String,
    // set where the journal was replayed; both texts are to be shown either way
    pub accepted: bool,
}

impl Outcome {
    // A journal with a line that cannot be read: only that line is told.
    pub(crate) fn unread(heap: Global, unreadable: &Unreadable) -> Result<Outcome, AllocError>
        ensures { IfOk result (λ x. shown x ≡ unread unreadable.now) }
    {
        let reported = format!(in heap; "{unreadable}\n")?;
        Ok(Outcome {
            printed: String::new(heap),
            reported,
            accepted: false,
        })
    }

    // A process that the reader declines: only its line is printed.
    pub(crate) fn declined(heap: Global, line: usize, fault: Fault) -> Result<Outcome, AllocError>
        ensures { IfOk result (λ x. shown x ≡ declined line fault) }
    {
        let process = AnswerLine {
            line,
            word: "process",
            answer: Answer::Declined(fault),
        };
        let printed = process.to_string(heap)?;
        Ok(Outcome {
            printed,
            reported: String::new(heap),
            accepted: false,
        })
    }

    // A journal that was replayed: what was printed of its process and its calls, and the summary.
    pub(crate) fn replayed(
        heap: Global,
        lines: &str,
        summary: &Summary,
    ) -> Result<Outcome, AllocError>
        ensures { IfOk result (λ x. shown x ≡ replayed lines.now (summary_shown summary.now)) }
    {
        let printed = format!(in heap; "{lines}{summary}")?;
        Ok(Outcome {
            printed,
            reported: String::new(heap),
            accepted: true,
        })
    }
}

// The line of a process that was accepted.
pub(crate) fn process_line(
    heap: Global,
    line: usize,
    process: &Process,
) -> Result<String, AllocError>
    ensures { IfOk result (λ t. string_bytes t ≡ process_line line (tables_of process.now)) }
{
    let steps = process.steps().len();
    let arrows = process.arrows().len();
    let process = AnswerLine {
        line,
        word: "process",
        answer: Answer::Process { steps, arrows },
    };
    process.to_string(heap)
}
