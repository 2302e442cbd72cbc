// Ending a rollback, parking it, and taking it up again.
ghost use Rattle.std.specs.Prelude.{◌≡◌, [], ◌∷◌};
ghost use Rattle.values.specs.Checks.{answer, first_fault};
ghost use Rattle.values.specs.declared.Phase.TheVariants.{Forward, Undoing, Parked};
ghost use Rattle.model.specs.Calls.{phase_check, ticket_check, finish_fault, park_fault};
ghost use Rattle.model.specs.Sheet.{ticket_of, with_phase};
ghost use Rattle.sheet.specs.SheetOf.{sheet_of};
ghost use Rattle.sheet.specs.Tickets.{Turns, ResumesNumbered};

use super::Sheet;
use values::{Cause, Fault, Layer, Phase, RowState, TicketNumber};

impl Sheet {
    // The numbers of the current rollback's ticket.
    pub(crate) fn current(&self) -> TicketNumber
        ensures { result ≡ ticket_of (sheet_of self.now) }
    {
        TicketNumber {
            serial: self.serial,
            rollback: self.rollback,
        }
    }

    // Declines a ticket of another sheet, or of another rollback.
    fn wants_ticket(&self, ticket: TicketNumber) -> Result<(), Fault>
        ensures { result ≡ answer (ticket_check (sheet_of self.now) ticket) tt }
    {
        if ticket != self.current() {
            return Err(Layer::Sheet.fault(Cause::OtherTicket, usize::from(self.rollback)));
        }
        Ok(())
    }

    // Whether a rollback is under way, and the ticket is its.
    pub(crate) fn wants_rollback(&self, ticket: TicketNumber) -> Result<(), Fault>
        ensures { result ≡ answer (first_fault (phase_check (sheet_of self.now) Undoing
            ∷ ticket_check (sheet_of self.now) ticket ∷ [])) tt }
    {
        self.wants(Phase::Undoing)?;
        self.wants_ticket(ticket)
    }

    fn may_finish(&self, ticket: TicketNumber) -> Result<(), Fault>
        ensures { result ≡ answer (finish_fault (sheet_of self.now) ticket) tt }
    {
        self.wants_rollback(ticket)?;
        if let Some(row) = self.table.lowest(RowState::Due) {
            return Err(Layer::Sheet.fault(Cause::StillDue, usize::from(row)));
        }
        Ok(())
    }

    // Finish, by the numbers of the ticket.
    pub(crate) fn finish_numbered(&mut self, ticket: TicketNumber) -> Result<(), Fault>
        ensures comes { Turns (finish_fault (sheet_of self.old) ticket) (sheet_of self.old)
            (with_phase (sheet_of self.old) Forward) result (sheet_of self.new) }
        ensures process { self.new.process ≡ self.old.process }
    {
        self.may_finish(ticket)?;
        self.phase = Phase::Forward;
        Ok(())
    }

    // Park, by the numbers of the ticket.
    pub(crate) fn park_numbered(&mut self, ticket: TicketNumber) -> Result<(), Fault>
        ensures comes { Turns (park_fault (sheet_of self.old) ticket) (sheet_of self.old)
            (with_phase (sheet_of self.old) Parked) result (sheet_of self.new) }
        ensures process { self.new.process ≡ self.old.process }
    {
        self.wants_rollback(ticket)?;
        self.phase = Phase::Parked;
        Ok(())
    }

    // Resume, by the numbers of the ticket.
    pub(crate) fn resume_numbered(&mut self) -> Result<TicketNumber, Fault>
        ensures comes { ResumesNumbered (sheet_of self.old) result (sheet_of self.new) }
        ensures process { self.new.process ≡ self.old.process }
    {
        self.wants(Phase::Parked)?;
        self.phase = Phase::Undoing;
        Ok(self.current())
    }
}
