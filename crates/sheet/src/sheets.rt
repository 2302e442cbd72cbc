// The sheet.
ghost use Rattle.model.specs.Sheets.{Kept};
ghost use Rattle.sheet.specs.Graphs.{HasGraph, HasGraph-prop};
ghost use Rattle.sheet.specs.Parts.{sheet_from};

use process::Process;
use rows::RowTable;
use rowset::RowSet;
use values::{Mode, Phase};

mod aborts;
mod ends;
mod listings;
mod phases;
mod reads;
mod replies;
mod starts;
mod summaries;
mod undos;

pub use summaries::{RowCounts, Summary};

/// The sheet of one competition: the process that it follows, its rows, and where it stands.
// `sheet_of` says what it is in the model, where rows are functions of their numbers
#[derive(Drop)]
pub struct Sheet {
    process: Process,
    table: RowTable,
    phase: Phase,
    // number and mode of the last rollback: 0 and complete before the first, as in the model
    rollback: u16,
    serial: u16,
    mode: Mode,
    // the rows of the compensating graph: those that the last abort made due
    graph: RowSet,
    ghost kept: { ∥ Kept (sheet_from table phase rollback serial mode) ∥₁ },
    ghost holds: { HasGraph (sheet_from table phase rollback serial mode) graph } by { HasGraph-prop _ _ },
}
