// What is told of a call.
ghost use Rattle.std.specs.Prelude.{◌≡◌};
ghost use Rattle.values.specs.declared.Answer.TheVariants.{Row, Done, Listed, Ticket as TicketGiven};
ghost use Rattle.sheet.specs.Happenings.{told};

use values::{Answer, Fault, TicketNumber};

// The answer of a call that answers a row's number.
pub(crate) fn row(number: Result<u16, Fault>) -> Answer
    ensures { result ≡ told Row number }
{
    match number {
        Ok(row) => Answer::Row(row),
        Err(fault) => Answer::Declined(fault),
    }
}

// The answer of a call that answers nothing else.
pub(crate) fn done(end: Result<(), Fault>) -> Answer
    ensures { result ≡ told (λ _. Done) end }
{
    match end {
        Ok(()) => Answer::Done,
        Err(fault) => Answer::Declined(fault),
    }
}

// The answer of a call that gives a ticket, by its numbers.
pub(crate) fn given(ticket: Result<TicketNumber, Fault>) -> Answer
    ensures { result ≡ told TicketGiven ticket }
{
    match ticket {
        Ok(number) => Answer::Ticket(number),
        Err(fault) => Answer::Declined(fault),
    }
}

// The answer of a listing, with the numbers of arrows and of restart points.
pub(crate) fn listed(counts: Result<(usize, usize), Fault>) -> Answer
    ensures { result ≡ told (λ n. Listed n.0 n.1) counts }
{
    match counts {
        Ok((arrows, restarts)) => Answer::Listed { arrows, restarts },
        Err(fault) => Answer::Declined(fault),
    }
}
