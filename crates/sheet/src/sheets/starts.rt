// Starting a row.
ghost use Rattle.std.specs.Prelude.{◌≡◌, ℕ, ◌+◌, ◌<◌, true, false, not, ◌&&◌, ◌||◌, length, ◌==◌, slice_index};
ghost use Rattle.values.specs.Checks.{answer, first_fault};
ghost use Rattle.values.specs.declared.RowState.TheVariants.{Committed};
ghost use Rattle.model.specs.Search.{first_below};
ghost use Rattle.model.specs.Chart.{by_flow, is_arrow};
ghost use Rattle.model.specs.Rows.{in_state, any_live};
ghost use Rattle.model.specs.Calls.{phase_check};
ghost use Rattle.host.specs.Made.{Made};
ghost use Rattle.sheet.specs.Asked.{start_asks};
ghost use Rattle.sheet.specs.Candidates.{sheet_for, chart_for, counted, unfit, used, fair, checks};
ghost use Rattle.sheet.specs.Calls.{Starts};
ghost use Rattle.sheet.specs.SheetOf.{sheet_of, chart_of};

use super::Sheet;
use crate::charts::{arrows_into, has_step, is_arrow};
use host::{Host, ROWS, row_key};
use rows::step_at;
use values::{Cause, Entry, Fault, Flow, Layer, Phase, RowState};

// A row that is to start: the sheet that it would be of, its step, the rows that it follows, and its entry.
#[derive(Drop)]
struct Candidate<'a> {
    sheet: &'a Sheet,
    step: u16,
    predecessors: &'a [u16],
    entry: Entry,
}

// Whether a row of one step uses up an exit, which takes one branch or all of them, for a row of another.
fn uses_exit(exit: Flow, of: u16, step: u16) -> bool
    ensures { result ≡ by_flow exit true (of == step) }
{
    match exit {
        Flow::One => true,
        Flow::All => of == step,
    }
}

impl Candidate<'_> {
    // Whether its predecessors are as many as its step asks for: 0 for step 1, else 1 or the number of arrows in, by its flow.
    fn counts(&self) -> bool
        ensures { result ≡ counted self.now }
    {
        let process = &self.sheet.process;
        if self.step == 1 {
            return self.predecessors.is_empty();
        }
        match (step_at(process.steps(), self.step).entry, self.predecessors) {
            (Flow::One, [_one]) => true,
            (Flow::One, _) => false,
            (Flow::All, []) => arrows_into(process, self.step) == 0,
            (Flow::All, [_first, rest @ ..]) => rest.len() + 1 == arrows_into(process, self.step),
        }
    }

    // Whether it can follow that row.
    fn may_follow(&self, row: u16) -> bool
        ensures { result ≡ (in_state (sheet_for self.now).rows Committed row
            && is_arrow (chart_for self.now) ((sheet_for self.now).rows.step row) self.now.step) }
    {
        let table = &self.sheet.table;
        table.is_in(RowState::Committed, row)
            && is_arrow(&self.sheet.process, table.step(row), self.step)
    }

    // The first predecessor that does not fit: no arrow leads from its step to the candidate's, or it is not committed, or
    // another of the same step comes before it.
    fn first_unfit(&self) -> Option<usize>
        ensures { result ≡ first_below (length self.now.predecessors.now) (unfit self.now) }
    {
        match self.predecessors {
            [] => None,
            [first, ..] if !self.may_follow(*first) => Some(0),
            [_one] => None,
            [_first, rest @ ..] => self.first_unfit_of(rest),
        }
    }

    // The same among the predecessors after the first, which it can follow.
    fn first_unfit_of(&self, rest: &[u16]) -> Option<usize>
        requires rest { (i : ℕ) → i < length rest.now → slice_index rest.now i ≡ slice_index self.now.predecessors.now (i + 1) }
        requires all { length self.now.predecessors.now ≡ length rest.now + 1 }
        requires first { unfit self.now 0 ≡ false }
        ensures { result ≡ first_below (length self.now.predecessors.now) (unfit self.now) }
    {
        let table = &self.sheet.table;
        let mut found = None;
        'rest: for i in 0..rest.len() {
            let row = rest[i];
            if !self.may_follow(row) {
                found = Some(i + 1);
                break 'rest;
            }
            for earlier in &self.predecessors[..i + 1] {
                if table.step(*earlier) == table.step(row) {
                    found = Some(i + 1);
                    break 'rest;
                }
            }
        }
        found
    }

    // The first predecessor without a branch for the candidate: a live follower took its only branch, or this one.
    fn first_used(&self) -> Option<usize>
        ensures { result ≡ first_below (length self.now.predecessors.now) (used self.now) }
    {
        let table = &self.sheet.table;
        let mut found = None;
        'predecessors: for i in 0..self.predecessors.len() {
            let row = self.predecessors[i];
            let exit = step_at(self.sheet.process.steps(), table.step(row)).exit;
            for follower in table.live_followers(row).iter() {
                if uses_exit(exit, table.step(follower), self.step) {
                    found = Some(i);
                    break 'predecessors;
                }
            }
        }
        found
    }

    // Whether its entry suits the step: its kind is the step's, and a number, if it has one, is in range.
    fn is_lawful(&self) -> bool
        ensures { result ≡ fair self.now }
    {
        let kind = step_at(self.sheet.process.steps(), self.step).kind;
        self.entry.kind == kind && self.entry.is_in_range()
    }

    // Whether it has too few or too many predecessors, or would be a row of step 1 beside others that are live.
    fn is_miscounted(&self) -> bool
        ensures { result ≡ (not (counted self.now)
            || (self.now.step == 1 && any_live (sheet_for self.now).rows)) }
    {
        !self.counts() || self.step == 1 && self.sheet.table.any_live()
    }

    // Whether the sheet itself lets it start.
    fn may_start(&self) -> Result<(), Fault>
        ensures { result ≡ answer (first_fault (checks self.now)) tt }
    {
        let sheet = self.sheet;
        sheet.wants(Phase::Forward)?;
        if !has_step(&sheet.process, self.step) {
            return Err(Layer::Sheet.fault(Cause::NoSuch, usize::from(self.step)));
        }
        let count = self.predecessors.len();
        if self.is_miscounted() {
            return Err(Layer::Sheet.fault(Cause::WrongCount, count));
        }
        if let Some(place) = self.first_unfit() {
            return Err(Layer::Sheet.fault(Cause::UnfitPredecessor, place));
        }
        if let Some(place) = self.first_used() {
            return Err(Layer::Sheet.fault(Cause::UsedExit, place));
        }
        if !self.is_lawful() {
            return Err(Layer::Sheet.fault(Cause::UnlawfulEntry, usize::from(self.step)));
        }
        if sheet.table.len() >= ROWS {
            return Err(Layer::Sheet.fault(Cause::FullSheet, usize::from(ROWS)));
        }
        Ok(())
    }
}

impl Sheet {
    // Declines a call that wants another phase.
    pub(crate) fn wants(&self, phase: Phase) -> Result<(), Fault>
        ensures { result ≡ answer (phase_check (sheet_of self.now) phase) tt }
    {
        if self.phase != phase {
            return Err(Layer::Sheet.fault(Cause::WrongPhase, usize::from(u8::from(self.phase))));
        }
        Ok(())
    }

    /// Adds a running row of a step, with these predecessors, and has the host begin it. Answers which row it is.
    pub fn start<X: Host>(
        &mut self,
        host: &mut X,
        step: u16,
        predecessors: &[u16],
        entry: Entry,
    ) -> Result<u16, Fault>
        ensures comes { Starts (chart_of self.old) (sheet_of self.old) (X.Host.view host.old)
            step predecessors.now entry result (sheet_of self.new) (X.Host.view host.new) }
        ensures made { Made X.Host.view X.Host.makes host.old
            (start_asks (chart_of self.old) (sheet_of self.old) step predecessors.now entry) host.new }
        ensures goes { X.Host.goes host.old host.new }
        ensures process { self.new.process ≡ self.old.process }
    {
        let candidate = Candidate {
            sheet: self,
            step,
            predecessors,
            entry,
        };
        candidate.may_start()?;
        let row = self.table.len() + 1;
        host.begin(row_key(row), entry)?;
        // a row that may start fits into the table
        self.table.push(step, predecessors, entry).unwrap();
        Ok(row)
    }
}
