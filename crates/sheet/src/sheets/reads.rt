// A blank sheet, and what a sheet shows.
ghost use Rattle.std.specs.Prelude.{◌≡◌, IfOk};
ghost use Rattle.model.specs.Sheet.{blank};
ghost use Rattle.sheet.specs.SheetOf.{sheet_of};

use super::Sheet;
use process::Process;
use rows::RowTable;
use rowset::RowSet;
use std::alloc::{AllocError, Global};
use values::{Mode, Phase};

impl Sheet {
    /// A blank sheet of a process. It takes the memory for all its rows now.
    pub fn new(heap: Global, process: Process, serial: u16) -> Result<Sheet, AllocError>
        ensures sheet { IfOk result (λ s. sheet_of s ≡ blank serial) }
        ensures process { IfOk result (λ s. s.process ≡ process) }
    {
        let table = RowTable::new(heap)?;
        Ok(Sheet {
            process,
            table,
            phase: Phase::Forward,
            rollback: 0,
            serial,
            mode: Mode::Complete,
            graph: RowSet::new(),
        })
    }

    /// The process that the sheet was made from, for another sheet.
    pub fn into_process(self) -> Process
        ensures { result ≡ self.process }
    {
        let Sheet { process, .. } = self;
        process
    }
}
