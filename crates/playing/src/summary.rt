// The summary of a run, and how it is printed.
ghost use Rattle.std.specs.Prelude.{◌≡◌, ◌<◌, ◌++◌, IfOk, string_bytes, Some, codes};
ghost use Rattle.std.specs.List.{zip};
ghost use Rattle.model.specs.Summaries.{summary_of};
ghost use Rattle.sheet.specs.SheetOf.{sheet_of, chart_of};
ghost use Rattle.sheet.specs.Summaries.{counts_told, summary_told};
ghost use Rattle.playing.specs.Names.{texts};
ghost use Rattle.playing.specs.Spelled.{phase_text, standing_text, rows_text, line_text, balance_text, summary_text, shown_byte, shown_name};
ghost use Rattle.playing.specs.Summaries.{line_shown, lines_shown, summary_shown, joined};

use sheet::{RowCounts, Sheet, Summary as SheetSummary};
use std::alloc::{AllocError, Global};
use std::fmt;
use values::{Phase, RowState};

/// How many calls there were, and what became of them.
#[derive(Clone, Copy, Default, Drop)]
pub struct CallCounts {
    pub all: usize,
    pub accepted: usize,
    pub declined: usize,
}

/// A step's name in printable bytes, and the state of its highest row; of a private step's none is told.
#[derive(Drop)]
pub struct StepLine {
    pub name: String,
    pub standing: Option<RowState>,
}

/// What is told of a run at its end.
#[derive(Drop)]
pub struct Summary {
    pub calls: CallCounts,
    pub phase: Phase,
    pub rollbacks: u16,
    pub rows: RowCounts,
    pub steps: Vec<StepLine>,
    /// The ledger's balance, where it is wanted.
    pub balance: Option<i64>,
}

// The words for a phase and for how a step stands, whose types are another crate's.
fn phase_word(phase: Phase) -> &'static str
    ensures { result.now ≡ phase_text phase }
{
    match phase {
        Phase::Forward => "forward",
        Phase::Undoing => "undoing",
        Phase::Parked => "parked",
    }
}

fn standing_word(standing: Option<RowState>) -> &'static str
    ensures { result.now ≡ standing_text standing }
{
    match standing {
        None => "private",
        Some(RowState::Absent) => "none",
        Some(RowState::Running) => "running",
        Some(RowState::Committed) => "committed",
        Some(RowState::Dropped) => "dropped",
        Some(RowState::Due) => "due",
        Some(RowState::Undone) => "undone",
        Some(RowState::PassedOver) => "passed over",
    }
}

// The counts of rows as they are printed.
#[derive(Clone, Copy, Drop)]
struct RowsText(RowCounts);

impl fmt::Display for RowsText {
    ghost output = { λ x. Some (rows_text (counts_told x.0)) };

    fn fmt<W: fmt::Write>(&self, f: &mut fmt::Formatter<W>) -> fmt::Result {
        let RowCounts {
            all,
            running,
            committed,
            dropped,
            due,
            undone,
            passed_over,
        } = self.0;
        write!(f, "rows {all} running {running} committed {committed}")?;
        write!(
            f,
            " dropped {dropped} due {due} undone {undone} passed over {passed_over}"
        )
    }
}

impl fmt::Display for StepLine {
    ghost output = { λ x. Some (line_text (line_shown x)) };

    fn fmt<W: fmt::Write>(&self, f: &mut fmt::Formatter<W>) -> fmt::Result {
        let name = self.name.as_str();
        let standing = standing_word(self.standing);
        write!(f, "{name} {standing}")
    }
}

// The line of a balance, where it is wanted.
#[derive(Clone, Copy, Drop)]
struct BalanceText(Option<i64>);

impl fmt::Display for BalanceText {
    ghost output = { λ x. Some (balance_text x.0) };

    fn fmt<W: fmt::Write>(&self, f: &mut fmt::Formatter<W>) -> fmt::Result {
        match self.0 {
            Some(balance) => write!(f, "balance {balance}\n"),
            None => Ok(()),
        }
    }
}

impl fmt::Display for Summary {
    ghost output = { λ x. Some (summary_text (summary_shown x)) };

    fn fmt<W: fmt::Write>(&self, f: &mut fmt::Formatter<W>) -> fmt::Result {
        let CallCounts {
            all,
            accepted,
            declined,
        } = self.calls;
        let phase = phase_word(self.phase);
        let rollbacks = self.rollbacks;
        let rows = RowsText(self.rows);
        let balance = BalanceText(self.balance);
        write!(
            f,
            "summary\ncalls {all} accepted {accepted} declined {declined}\n"
        )?;
        write!(f, "phase {phase} rollbacks {rollbacks}\n")?;
        write!(f, "{rows}\n")?;
        for (n, step) in self.steps.iter().enumerate() {
            let n = n + 1;
            write!(f, "step {n} {step}\n")?;
        }
        write!(f, "{balance}")
    }
}

fn printable_char(b: u8) -> char
    ensures ascii { result < 128 }
    ensures value { result ≡ shown_byte b }
{
    if b.is_ascii_graphic() {
        char::from(b)
    } else {
        '?'
    }
}

/// A name as it is printed: a question mark for each byte outside 33 to 126.
pub fn printable_name(heap: Global, name: &[u8]) -> Result<String, AllocError>
    ensures { IfOk result (λ t. string_bytes t ≡ shown_name name.now) }
{
    name.iter().map(|b| printable_char(*b)).collect(heap)
}

// The lines of the steps, by their names and how they stand.
fn step_lines(
    heap: Global,
    names: Vec<String>,
    standings: Vec<Option<RowState>>,
) -> Result<Vec<StepLine>, AllocError>
    ensures { IfOk result (λ v. lines_shown v ≡ zip (texts names) standings.items) }
{
    names
        .into_iter()
        .zip(standings)
        .map(|(name, standing)| StepLine { name, standing })
        .collect(heap)
}

impl Summary {
    // The summary of a run with these calls that ends with that sheet, of a process whose steps have these names.
    pub(crate) fn new(
        heap: Global,
        calls: CallCounts,
        sheet: SheetSummary,
        names: Vec<String>,
        balance: Option<i64>,
    ) -> Result<Summary, AllocError>
        ensures { IfOk result (λ x.
            summary_shown x ≡ joined calls (summary_told sheet) (texts names) balance) }
    {
        let SheetSummary {
            phase,
            rollbacks,
            rows,
            standings,
        } = sheet;
        Ok(Summary {
            calls,
            phase,
            rollbacks,
            rows,
            steps: step_lines(heap, names, standings)?,
            balance,
        })
    }

    /// The summary of a sheet after these calls, of a process whose steps have these names.
    pub fn of(
        heap: Global,
        calls: CallCounts,
        sheet: &Sheet,
        names: Vec<String>,
        balance: Option<i64>,
    ) -> Result<Summary, AllocError>
        ensures { IfOk result (λ x. summary_shown x
            ≡ joined calls (summary_of (chart_of sheet.now) (sheet_of sheet.now)) (texts names) balance) }
    {
        Summary::new(heap, calls, sheet.summary(heap)?, names, balance)
    }

    /// The summary's lines.
    pub fn render(&self, heap: Global) -> Result<String, AllocError>
        ensures { IfOk result (λ t. string_bytes t ≡ summary_text (summary_shown self.now)) }
    {
        self.to_string(heap)
    }
}
