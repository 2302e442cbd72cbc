// Undoing a due row.
ghost use Rattle.std.specs.Prelude.{◌≡◌, true, false, [], ◌∷◌, length};
ghost use Rattle.values.specs.Checks.{answer, first_fault};
ghost use Rattle.graph.specs.Held.{held};
ghost use Rattle.graph.specs.Scratch.{SameLoans};
ghost use Rattle.process.specs.Accepted.{enough};
ghost use Rattle.model.specs.Run.{column_after};
ghost use Rattle.host.specs.Made.{Made};
ghost use Rattle.sheet.specs.Asked.{undo_asks};
ghost use Rattle.sheet.specs.SheetOf.{sheet_of};
ghost use Rattle.sheet.specs.Tickets.{undo_own_checks, Undoes};

use super::Sheet;
use crate::memory::wants_memory;
use crate::ticket::Ticket;
use graph::marks::Marks;
use graph::scratch::Scratch;
use host::{Host, row_key};
use values::{Cause, Fault, Layer, RowState, TicketNumber};

impl Sheet {
    // The checks of undo between that of the memory and those of the host.
    fn may_undo(&self, ticket: TicketNumber, row: u16, scratch: &mut Scratch) -> Result<(), Fault>
        requires { enough (length (held scratch.old.marks.now)) (length scratch.old.line.now) ≡ true }
        ensures checks { result ≡ answer (first_fault (undo_own_checks (sheet_of self.now) ticket row)) tt }
        ensures loans { SameLoans scratch.old scratch.new }
    {
        self.wants_rollback(ticket)?;
        self.wants_row(RowState::Due, row)?;
        match self.table.due_after(row, scratch).unwrap() {
            Some(later) => Err(Layer::Sheet.fault(Cause::DueAfter, usize::from(later))),
            None => Ok(()),
        }
    }

    // Undo, by the numbers of the ticket.
    pub(crate) fn undo_numbered<X: Host>(
        &mut self,
        host: &mut X,
        ticket: TicketNumber,
        row: u16,
        column: &mut [u8],
        line: &mut [u16],
    ) -> Result<(), Fault>
        ensures comes { Undoes (sheet_of self.old) (X.Host.view host.old) ticket row
            (length column.old) (length line.old) result (sheet_of self.new) (X.Host.view host.new) }
        ensures made { Made X.Host.view X.Host.makes host.old
            (undo_asks (sheet_of self.old) ticket row (length column.old) (length line.old)) host.new }
        ensures goes { X.Host.goes host.old host.new }
        ensures process { self.new.process ≡ self.old.process }
        ensures column { column.new ≡ column_after column.old (length line.old) }
        ensures line { enough (length column.old) (length line.old) ≡ false → line.new ≡ line.old }
    {
        wants_memory(column, line)?;
        let mut marks = Marks::new(column);
        let mut scratch = Scratch {
            marks: &mut marks,
            line,
        };
        self.may_undo(ticket, row, &mut scratch)?;
        host.undo(row_key(row))?;
        self.table.set_state(row, RowState::Undone);
        Ok(())
    }

    /// Undoes a due row, also at the host, where no row after it is due. The ticket is only shown.
    pub fn undo<X: Host>(
        &mut self,
        host: &mut X,
        ticket: &Ticket,
        row: u16,
        column: &mut [u8],
        line: &mut [u16],
    ) -> Result<(), Fault>
        ensures comes { Undoes (sheet_of self.old) (X.Host.view host.old) ticket.now.number row
            (length column.old) (length line.old) result (sheet_of self.new) (X.Host.view host.new) }
        ensures made { Made X.Host.view X.Host.makes host.old
            (undo_asks (sheet_of self.old) ticket.now.number row (length column.old) (length line.old)) host.new }
        ensures goes { X.Host.goes host.old host.new }
        ensures process { self.new.process ≡ self.old.process }
        ensures column { column.new ≡ column_after column.old (length line.old) }
        ensures line { enough (length column.old) (length line.old) ≡ false → line.new ≡ line.old }
    {
        self.undo_numbered(host, ticket.number(), row, column, line)
    }
}
