// A journal's calls made one after another, and what is printed of them.
ghost use Rattle.std.specs.Prelude.{◌≡◌, ◌+◌, ◌<◌, ◌≤◌, ◌^◌, ◌++◌, length, take, drop, map, string_bytes, IfOk, OnOk};
ghost use Rattle.process.specs.Accepted.{tables_of};
ghost use Rattle.model.specs.Book.{accepted as is_accepted};
ghost use Rattle.sheet.specs.Lent.{lent_of};
ghost use Rattle.journal.specs.Calls.{call_of, call_text, line_read};
ghost use Rattle.playing.specs.Played.{Fits, part_of, is_called, counted, counts_along, told_text, told_line, play_one, play, unplayed};
ghost use Rattle.playing.specs.Names.{texts};
ghost use Rattle.playing.specs.Outcomes.{process_line, shown as shown_of};
ghost use Rattle.playing.specs.Playing.{played_of, process_of};
ghost use Rattle.playing.specs.Run.{balance_told, concluded};
ghost use Rattle.playing.specs.Spelled.{answer_text};

use crate::answers::{Answer, AnswerLine};
use crate::competitions::competition;
use crate::outcomes::{Outcome, process_line};
use crate::play::Play;
use crate::summary::{CallCounts, Summary};
use club::balance;
use journal::{HostEvent, Journal, Line};
use process::Process;
use sheet::{Event, Memory, Taken};
use std::alloc::{AllocError, Global};
use values::Answer as Given;

fn first<T>(count: usize, items: &[T]) -> &[T]
    ensures { result.now ≡ take count items.now }
{
    &items[..count.min(items.len())]
}

fn without<T>(count: usize, items: &[T]) -> &[T]
    ensures { result.now ≡ drop count items.now }
{
    &items[count.min(items.len())..]
}

// An answer as it is printed, with what the call wrote into memory.
fn shown<'a>(event: &HostEvent, answer: Given, memory: &'a Memory) -> Answer<'a>
    ensures { answer_text result ≡ told_text (call_of event.now) answer (lent_of memory.now) }
{
    match answer {
        Given::Row(row) => Answer::Row(row),
        Given::Done => match *event {
            Event::Reply { place } => Answer::Reply(first(32, without(place, &memory.buffer))),
            _ => Answer::Done,
        },
        Given::Ticket(ticket) => Answer::Ticket(ticket),
        Given::Listed { arrows, restarts } => Answer::Listed {
            arrows: first(arrows, &memory.arrows),
            restarts: first(restarts, &memory.restarts),
        },
        Given::Declined(fault) => Answer::Declined(fault),
    }
}

// Prints the line of an answer; of other memory that is lent there is none.
fn print(
    heap: Global,
    printed: &mut String,
    line: &Line,
    answer: Given,
    memory: &Memory,
) -> Result<(), AllocError>
    ensures { OnOk result (string_bytes printed.new ≡ string_bytes printed.old
        ++ told_line (part_of (call_of line.now.event)) line.now.number (call_text (call_of line.now.event))
        (told_text (call_of line.now.event) answer (lent_of memory.now))) }
{
    if let Event::Lend { .. } = line.event {
        return Ok(());
    }
    let text = AnswerLine {
        line: line.number,
        word: line.word(),
        answer: shown(&line.event, answer, memory),
    };
    printed.push_str(text.to_string(heap)?.as_str())
}

fn is_accepted(answer: Given) -> bool
    ensures { result ≡ is_accepted answer }
{
    !matches!(answer, Given::Declined(_))
}

fn is_call(event: &HostEvent) -> bool
    ensures { result ≡ is_called (part_of (call_of event.now)) }
{
    !matches!(event, Event::Lend { .. } | Event::Control { .. })
}

impl CallCounts {
    // One event more; only calls count.
    fn add(&mut self, event: &HostEvent, answer: Given)
        requires { Fits 1 self.old }
        ensures { self.new ≡ counted (part_of (call_of event.now)) (is_accepted answer) self.old }
    {
        if !is_call(event) {
            return;
        }
        self.all += 1;
        if is_accepted(answer) {
            self.accepted += 1;
        } else {
            self.declined += 1;
        }
    }

    /// The calls among these events, by what was told of each, as far as both lists go.
    pub fn of(events: &[HostEvent], taken: &[Taken]) -> CallCounts
        ensures { result ≡ counts_along events.now taken.now }
    {
        let mut calls = CallCounts::default();
        for (event, one) in events.iter().zip(taken) {
            calls.add(event, one.answer);
        }
        calls
    }
}

impl Play {
    // A journal of a process that was accepted, before its first call.
    pub(crate) fn of(heap: Global, journal: &Journal, process: Process) -> Result<Play, AllocError>
        ensures played { IfOk result (λ p. played_of p
            ≡ unplayed journal.now.serial journal.now.scores journal.now.ledger
            (process_line journal.now.process_line (tables_of process))) }
        ensures process { IfOk result (λ p. process_of p ≡ tables_of process) }
    {
        let printed = process_line(heap, journal.process_line, &process)?;
        let competition = competition(heap, journal, process)?;
        Ok(Play {
            competition,
            printed,
            calls: CallCounts::default(),
        })
    }

    // Makes the call of a line, and prints its answer.
    fn take(&mut self, heap: Global, line: &Line) -> Result<(), AllocError>
        requires { Fits 1 self.old.calls }
        ensures played { OnOk result (played_of self.new ≡ play_one (process_of self.old) (played_of self.old) (line_read line.now)) }
        ensures process { process_of self.new ≡ process_of self.old }
    {
        let told = self.competition.take(heap, &line.event)?.told();
        self.calls.add(&line.event, told);
        print(
            heap,
            &mut self.printed,
            line,
            told,
            self.competition.memory(),
        )
    }

    // Makes the calls of all lines, and prints their answers.
    pub(crate) fn run(&mut self, heap: Global, lines: &[Line]) -> Result<(), AllocError>
        requires { Fits (length lines.now) self.old.calls }
        ensures played { OnOk result (played_of self.new ≡ play (process_of self.old) (played_of self.old) (map line_read lines.now)) }
        ensures process { process_of self.new ≡ process_of self.old }
    {
        for line in lines {
            self.take(heap, line)?;
        }
        Ok(())
    }

    // The ledger's balance, where it is wanted.
    fn balance(&self, treasurer: bool) -> Option<i64>
        ensures { result ≡ balance_told treasurer (played_of self.now) }
    {
        if treasurer {
            Some(balance(self.competition.host()))
        } else {
            None
        }
    }

    // What is told in the end, of a process whose steps have these names.
    pub(crate) fn outcome(
        &self,
        heap: Global,
        names: Vec<String>,
        treasurer: bool,
    ) -> Result<Outcome, AllocError>
        ensures { IfOk result (λ x. shown_of x ≡ concluded treasurer (process_of self.now) (played_of self.now) (texts names)) }
    {
        let balance = self.balance(treasurer);
        let sheet = self.competition.sheet();
        let summary = Summary::of(heap, self.calls, sheet, names, balance)?;
        Outcome::replayed(heap, self.printed.as_str(), &summary)
    }
}
