// Reading a stored process.
ghost use Rattle.std.specs.Prelude.{◌≡◌, true, false, length, Err};
ghost use Rattle.graph.specs.Held.{held};
ghost use Rattle.graph.specs.Scratch.{SameLoans};
ghost use Rattle.process.specs.Accepted.{tables_of, Reading, enough, short_memory, Left};
ghost use Rattle.process.specs.Drafts.{bare, SoundDraft};

use super::Process;
use crate::parts::{Arrow, Step};
use crate::shape::ArrowGraph;
use crate::tables::{Draft, Tables, filled};
use graph::marks::Marks;
use graph::scratch::Scratch;
use values::{Cause, Fault, Layer};

/// The least length of a column for reading.
pub const COLUMN: usize = 257;

/// The least length of a line for reading.
pub const LINE: usize = 256;

impl Process {
    /// The process that the tables hold.
    fn new(draft: Draft) -> Process
        requires { SoundDraft draft }
        ensures { tables_of result ≡ bare draft }
    {
        let Draft { steps, arrows } = draft;
        Process { steps, arrows }
    }

    /// The steps, of which the first is step 1.
    pub fn steps(&self) -> &[Step]
        ensures { result.now ≡ (tables_of self.now).0 }
    {
        self.steps.as_slice()
    }

    /// The arrows, from the least to the greatest.
    pub fn arrows(&self) -> &[Arrow]
        ensures { result.now ≡ (tables_of self.now).1 }
    {
        self.arrows.as_slice()
    }
}

/// Whether a column and a line are long enough for reading.
pub fn is_enough(column: &[u8], line: &[u16]) -> bool
    ensures { result ≡ enough (length column.now) (length line.now) }
{
    COLUMN <= column.len() && LINE <= line.len()
}

/// Reads with memory enough: record after record, and then the steps are checked.
fn read_with(input: &[u8], tables: Tables, scratch: &mut Scratch) -> Result<Process, Fault>
    requires { enough (length (held scratch.old.marks.now)) (length scratch.old.line.now) ≡ true }
    ensures reading { Reading input.now result }
    ensures loans { SameLoans scratch.old scratch.new }
{
    let draft = filled(input, tables)?;
    let graph = ArrowGraph {
        steps: draft.steps.len(),
        arrows: draft.arrows.as_slice(),
    };
    match graph.unfit_step(scratch) {
        Some(place) => Err(Layer::Reader.fault(Cause::WrongStep, place)),
        None => Ok(Process::new(draft)),
    }
}

/// Reads a stored process into the tables.
///
/// Where the column has fewer than 257 bytes or the line fewer than 256 numbers, no byte of the input is looked at.
pub fn read(
    input: &[u8],
    tables: Tables,
    column: &mut [u8],
    line: &mut [u16],
) -> Result<Process, Fault>
    ensures short { enough (length column.old) (length line.old) ≡ false → result ≡ Err short_memory }
    ensures answer { enough (length column.old) (length line.old) ≡ true → Reading input.now result }
    ensures column { Left (enough (length column.old) (length line.old))
        column.old column.new }
    ensures line { enough (length column.old) (length line.old) ≡ false
        → line.new ≡ line.old }
{
    if !is_enough(column, line) {
        return Err(Layer::Reader.fault(Cause::ShortMemory, 0));
    }
    let mut marks = Marks::new(column);
    let mut scratch = Scratch {
        marks: &mut marks,
        line,
    };
    read_with(input, tables, &mut scratch)
}
