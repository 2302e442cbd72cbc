// The calls that give a ticket and those that end one.
ghost use Rattle.std.specs.Prelude.{◌≡◌, false, length};
ghost use Rattle.values.specs.declared.Phase.TheVariants.{Forward, Parked};
ghost use Rattle.process.specs.Accepted.{enough};
ghost use Rattle.host.specs.Made.{Made};
ghost use Rattle.model.specs.Calls.{finish_fault, park_fault};
ghost use Rattle.model.specs.Run.{column_after};
ghost use Rattle.model.specs.Sheet.{with_phase};
ghost use Rattle.sheet.specs.Asked.{abort_asks};
ghost use Rattle.sheet.specs.SheetOf.{sheet_of, chart_of};
ghost use Rattle.sheet.specs.Tickets.{Aborts, Leaves, Resumes};

use super::Ticket;
use crate::sheets::Sheet;
use host::Host;
use values::{Fault, Mode};

impl Sheet {
    /// Begins a rollback, of everything or of what a failing row calls for, and gives its ticket: struck rows are due or passed
    /// over, and what ran is dropped, at the host too.
    pub fn abort<X: Host>(
        &mut self,
        host: &mut X,
        mode: Mode,
        column: &mut [u8],
        line: &mut [u16],
    ) -> Result<Ticket, Fault>
        ensures comes { Aborts (chart_of self.old) (sheet_of self.old) (X.Host.view host.old) mode
            (length column.old) (length line.old) result (sheet_of self.new) (X.Host.view host.new) }
        ensures made { Made X.Host.view X.Host.makes host.old (abort_asks (sheet_of self.old) (X.Host.view host.old) mode
            (length column.old) (length line.old)) host.new }
        ensures goes { X.Host.goes host.old host.new }
        ensures process { self.new.process ≡ self.old.process }
        ensures column { column.new ≡ column_after column.old (length line.old) }
        ensures line { enough (length column.old) (length line.old) ≡ false → line.new ≡ line.old }
    {
        let number = self.abort_numbered(host, mode, column, line)?;
        Ok(Ticket { number })
    }

    /// Ends the rollback, where no row is due any more. With a fault the same ticket comes back.
    pub fn finish(&mut self, ticket: Ticket) -> Result<(), (Ticket, Fault)>
        ensures comes { Leaves (finish_fault (sheet_of self.old) ticket.number) ticket (sheet_of self.old)
            (with_phase (sheet_of self.old) Forward) result (sheet_of self.new) }
        ensures process { self.new.process ≡ self.old.process }
    {
        if let Err(fault) = self.finish_numbered(ticket.number()) {
            return Err((ticket, fault));
        }
        let Ticket { number: _ } = ticket;
        Ok(())
    }

    /// Parks the rollback. With a fault the same ticket comes back.
    pub fn park(&mut self, ticket: Ticket) -> Result<(), (Ticket, Fault)>
        ensures comes { Leaves (park_fault (sheet_of self.old) ticket.number) ticket (sheet_of self.old)
            (with_phase (sheet_of self.old) Parked) result (sheet_of self.new) }
        ensures process { self.new.process ≡ self.old.process }
    {
        if let Err(fault) = self.park_numbered(ticket.number()) {
            return Err((ticket, fault));
        }
        let Ticket { number: _ } = ticket;
        Ok(())
    }

    /// Takes a parked rollback up again, and gives its ticket.
    pub fn resume(&mut self) -> Result<Ticket, Fault>
        ensures comes { Resumes (sheet_of self.old) result (sheet_of self.new) }
        ensures process { self.new.process ≡ self.old.process }
    {
        let number = self.resume_numbered()?;
        Ok(Ticket { number })
    }
}
