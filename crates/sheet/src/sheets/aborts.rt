// Rolling back.
ghost use Rattle.std.specs.Prelude.{◌≡◌, true, false, None, length};
ghost use Rattle.graph.specs.Held.{held};
ghost use Rattle.graph.specs.Scratch.{SameLoans};
ghost use Rattle.process.specs.Accepted.{enough};
ghost use Rattle.model.specs.Run.{column_after};
ghost use Rattle.model.specs.Sheet.{aborted};
ghost use Rattle.values.specs.Checks.{answer, first_fault};
ghost use Rattle.model.specs.Calls.{mode_check, all_dropped};
ghost use Rattle.host.specs.Made.{Made};
ghost use Rattle.sheet.specs.Asked.{abort_asks, drops};
ghost use Rattle.sheet.specs.Calls.{abort_own_checks, drop_checks, Droppable};
ghost use Rattle.sheet.specs.Tickets.{AbortsNumbered};
ghost use Rattle.sheet.specs.SheetOf.{sheet_of, chart_of};

use super::Sheet;
use crate::memory::wants_memory;
use graph::marks::Marks;
use graph::scratch::Scratch;
use host::{Host, row_key};
use values::{Cause, Fault, HostState, Layer, Mode, Phase, RowState, TicketNumber};

impl Sheet {
    // Asks the host of each running row, from the lowest on, whether it may drop it.
    fn may_drop_running<X: Host>(&self, host: &X) -> Result<(), Fault>
        ensures { result ≡ answer (first_fault (drop_checks (sheet_of self.now) (X.Host.view host.now))) tt }
    {
        let running = self.table.rows_in(RowState::Running);
        for row in running.iter() {
            host.may_move(row_key(row), HostState::Open)?;
        }
        Ok(())
    }

    // Has the host drop each row that runs.
    fn drop_running<X: Host>(&self, host: &mut X)
        requires { Droppable (sheet_of self.now).rows (X.Host.view host.old) }
        ensures drops { X.Host.view host.new ≡ all_dropped (sheet_of self.now).rows (X.Host.view host.old) }
        ensures made { Made X.Host.view X.Host.makes host.old (drops (sheet_of self.now).rows) host.new }
        ensures goes { X.Host.goes host.old host.new }
    {
        let to_drop = self.table.rows_in(RowState::Running);
        for row in to_drop.iter() {
            host.drop_row(row_key(row)).unwrap();
        }
    }

    fn wants_mode(&self, mode: Mode) -> Result<(), Fault>
        ensures { result ≡ answer (mode_check (sheet_of self.now).rows mode) tt }
    {
        match mode {
            Mode::Complete if self.table.any_live() => Ok(()),
            Mode::Complete => Err(Layer::Sheet.fault(Cause::NothingLive, 0)),
            Mode::Partial(row) => self.wants_row(RowState::Running, row),
        }
    }

    fn may_abort<X: Host>(&self, host: &X, mode: Mode) -> Result<(), Fault>
        ensures { result ≡ answer (first_fault (abort_own_checks (sheet_of self.now) (X.Host.view host.now) mode)) tt }
    {
        self.wants(Phase::Forward)?;
        self.wants_mode(mode)?;
        self.may_drop_running(host)
    }

    // Takes back what the abort strikes: first which rows, then the running rows at the host, then all rows of the sheet.
    fn roll_back<X: Host>(&mut self, host: &mut X, mode: Mode, scratch: &mut Scratch)
        requires may { first_fault (abort_own_checks (sheet_of self.old) (X.Host.view host.old) mode) ≡ None }
        requires room { enough (length (held scratch.old.marks.now)) (length scratch.old.line.now) ≡ true }
        ensures sheet { sheet_of self.new ≡ aborted (chart_of self.old) (sheet_of self.old) mode }
        ensures host { X.Host.view host.new ≡ all_dropped (sheet_of self.old).rows (X.Host.view host.old) }
        ensures made { Made X.Host.view X.Host.makes host.old (drops (sheet_of self.old).rows) host.new }
        ensures goes { X.Host.goes host.old host.new }
        ensures process { self.new.process ≡ self.old.process }
        ensures loans { SameLoans scratch.old scratch.new }
    {
        let struck = self
            .table
            .struck(self.process.steps(), mode, scratch)
            .unwrap();
        self.drop_running(host);
        let rollback = self.rollback + 1;
        self.table.fall(self.process.steps(), &struck, rollback);
        self.phase = Phase::Undoing;
        self.rollback = rollback;
        self.mode = mode;
        self.graph = self.table.rows_in(RowState::Due);
    }

    // Abort, by the numbers of the rollback's ticket.
    pub(crate) fn abort_numbered<X: Host>(
        &mut self,
        host: &mut X,
        mode: Mode,
        column: &mut [u8],
        line: &mut [u16],
    ) -> Result<TicketNumber, Fault>
        ensures comes { AbortsNumbered (chart_of self.old) (sheet_of self.old) (X.Host.view host.old) mode
            (length column.old) (length line.old) result (sheet_of self.new) (X.Host.view host.new) }
        ensures made { Made X.Host.view X.Host.makes host.old (abort_asks (sheet_of self.old) (X.Host.view host.old) mode
            (length column.old) (length line.old)) host.new }
        ensures goes { X.Host.goes host.old host.new }
        ensures process { self.new.process ≡ self.old.process }
        ensures column { column.new ≡ column_after column.old (length line.old) }
        ensures line { enough (length column.old) (length line.old) ≡ false → line.new ≡ line.old }
    {
        wants_memory(column, line)?;
        let mut marks = Marks::new(column);
        self.may_abort(host, mode)?;
        let mut scratch = Scratch {
            marks: &mut marks,
            line,
        };
        self.roll_back(host, mode, &mut scratch);
        Ok(self.current())
    }
}
