// Ending a row.
ghost use Rattle.std.specs.Prelude.{◌≡◌};
ghost use Rattle.values.specs.Checks.{answer, first_fault};
ghost use Rattle.model.specs.Calls.{row_check};
ghost use Rattle.host.specs.Made.{Made};
ghost use Rattle.sheet.specs.Asked.{end_asks};
ghost use Rattle.sheet.specs.Calls.{end_checks, Ends};
ghost use Rattle.sheet.specs.SheetOf.{sheet_of};

use super::Sheet;
use host::{Host, row_key};
use values::{Cause, Fault, Layer, Phase, RowState};

impl Sheet {
    // Declines a call for which the row would have to be in this state.
    pub(crate) fn wants_row(&self, state: RowState, row: u16) -> Result<(), Fault>
        ensures { result ≡ answer (row_check (sheet_of self.now).rows state row) tt }
    {
        if !self.table.is_in(state, row) {
            return Err(Layer::Sheet.fault(Cause::NoSuch, usize::from(row)));
        }
        Ok(())
    }

    fn may_end(&self, row: u16) -> Result<(), Fault>
        ensures { result ≡ answer (first_fault (end_checks (sheet_of self.now) row)) tt }
    {
        self.wants(Phase::Forward)?;
        self.wants_row(RowState::Running, row)
    }

    /// Ends a row that runs: the host commits it, and the sheet has it as committed.
    pub fn end<X: Host>(&mut self, host: &mut X, row: u16) -> Result<(), Fault>
        ensures comes { Ends (sheet_of self.old) (X.Host.view host.old) row result
            (sheet_of self.new) (X.Host.view host.new) }
        ensures made { Made X.Host.view X.Host.makes host.old (end_asks (sheet_of self.old) row) host.new }
        ensures goes { X.Host.goes host.old host.new }
        ensures process { self.new.process ≡ self.old.process }
    {
        self.may_end(row)?;
        host.commit(row_key(row))?;
        self.table.set_state(row, RowState::Committed);
        Ok(())
    }
}
