// The ticket of a rollback.
ghost use Rattle.std.specs.Prelude.{◌≡◌};

use values::TicketNumber;

mod rollbacks;

/// The right to end a rollback. Abort and resume give one; only finish and park end it, so it cannot be let go or used
/// twice.
// Its field is private, so that no other module can make one or take one apart.
#[derive(Debug)]
pub struct Ticket {
    number: TicketNumber,
}

impl Ticket {
    /// The numbers that the ticket shows.
    pub fn number(&self) -> TicketNumber
        ensures { result ≡ self.now.number }
    {
        self.number
    }
}
