// A journal replayed many times, by the clock.
use crate::replay;
use anyhow::anyhow;
use club::balance;
use journal::{HostEvent, Journal, parse};
use playing::{CallCounts, Summary, competition, step_names};
use process::tables::Tables;
use process::{COLUMN, LINE, Process};
use sheet::{End, Taken};
use std::process::ExitCode;
use std::time::{Duration, Instant};
use values::Fault;

// What a journal replays, again and again: its settings, with no lines, and the events of its lines.
#[derive(Drop)]
struct Course {
    settings: Journal,
    events: Vec<HostEvent>,
}

// A replay: the time that its events took, and its summary.
#[derive(Drop)]
struct Lap {
    spent: Duration,
    summary: Summary,
}

fn process_of(rt: &HostRuntime, stored: &[u8]) -> anyhow::Result<Result<Process, Fault>> {
    let tables = Tables::new(rt.alloc())?;
    let mut column = [0; COLUMN];
    let mut line = [0; LINE];
    Ok(process::read(stored, tables, &mut column, &mut line))
}

impl Course {
    fn of(rt: &HostRuntime, journal: Journal) -> anyhow::Result<Course> {
        let Journal {
            process,
            process_line,
            serial,
            scores,
            ledger,
            lines,
        } = journal;
        let events = lines
            .into_iter()
            .map(|line| line.event)
            .collect(rt.alloc())?;
        let settings = Journal {
            process,
            process_line,
            serial,
            scores,
            ledger,
            lines: Vec::new(rt.alloc()),
        };
        Ok(Course { settings, events })
    }

    // Replays the events once; only that is by the clock.
    fn lap(&self, rt: &HostRuntime, process: Process, treasurer: bool) -> anyhow::Result<Lap> {
        let steps = process.steps().len();
        let mut competition = competition(rt.alloc(), &self.settings, process)?;
        let mut taken = vec![in rt.alloc(); Taken::PLACE; self.events.len()]?;
        let start = Instant::now(rt)?;
        let replayed = competition.replay(rt.alloc(), &self.events, &mut taken);
        let spent = start.elapsed(rt)?;
        if let End::Memory(error) = replayed.end {
            return Err(error.into());
        }
        let calls = CallCounts::of(&self.events, &taken);
        let names = step_names(rt.alloc(), &self.settings.process, steps + 1)?;
        let balance = treasurer.then(|| balance(competition.host()));
        let summary = Summary::of(rt.alloc(), calls, competition.sheet(), names, balance)?;
        Ok(Lap { spent, summary })
    }
}

// Replays a journal so often, and prints how long a replay took and the summary of the last.
pub(crate) fn bench(
    rt: &HostRuntime,
    text: &[u8],
    treasurer: bool,
    replays: u32,
) -> anyhow::Result<ExitCode> {
    let Ok(journal) = parse(rt.alloc(), text) else {
        return replay(rt, text, treasurer);
    };
    let course = Course::of(rt, journal)?;
    let mut spent = Duration::ZERO;
    let mut last = None;
    for _ in 0..replays {
        let Ok(process) = process_of(rt, &course.settings.process)? else {
            return replay(rt, text, treasurer);
        };
        let lap = course.lap(rt, process, treasurer)?;
        spent = spent.saturating_add(lap.spent);
        last = Some(lap.summary);
    }
    let Some(summary) = last else {
        return Err(anyhow!("there must be one replay at least"));
    };
    let calls = summary.calls.all;
    let each = spent
        .as_nanos()
        .checked_div(u128::from(replays))
        .unwrap_or(0);
    print!(rt; "calls {calls} replays {replays}\nns per replay {each}\n{summary}")?;
    Ok(ExitCode::SUCCESS)
}
