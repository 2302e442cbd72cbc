//! Whole rollbacks. A ticket cannot be let go: each that a sheet gives here is held until it is ended.
#![tactic(auto)]

ghost use Rattle.std.specs.Prelude.{◌≡◌, ℕ, false, vec_len, MatchOption, IfOk};
ghost use Rattle.values.specs.declared.Mode.TheVariants.{Complete};
ghost use Rattle.values.specs.declared.Phase.TheVariants.{Undoing};
ghost use Rattle.host.specs.Keys.{rows_most};
ghost use Rattle.host.specs.Made.{Made};
ghost use Rattle.model.specs.Calls.{abort_fault, resume_fault};
ghost use Rattle.model.specs.Rows.{live};
ghost use Rattle.model.specs.Sheet.{aborted, with_phase};
ghost use Rattle.sheet.specs.SheetOf.{sheet_of, chart_of};
ghost use Rattle.tickets.specs.Rollbacks.{ComesTo, undone_down, undone_down_asks, carried, carried_asks};
ghost use Rattle.tickets.specs.Rollbacks.{rolled_back, rolled_back_asks, carried_on, carried_on_asks};
ghost use Rattle.tickets.specs.Endings.{Holds, Through, RollbackEnds, Scratches};

use host::{Host, ROWS};
use sheet::{Memory, Sheet, Ticket};
use values::{Cause, Fault, Mode};

// Undoes the due rows from the highest down: a row has a higher number than those that it is after.
fn undo_rows<X: Host>(
    sheet: &mut Sheet,
    host: &mut X,
    ticket: &Ticket,
    memory: &mut Memory,
) -> Result<(), Fault>
    requires { Holds ticket.now (sheet_of sheet.old) }
    ensures comes { ComesTo (undone_down rows_most (sheet_of sheet.old) (X.Host.view host.old) ticket.now.number
        (vec_len memory.old.column) (vec_len memory.old.line)) result (sheet_of sheet.new) (X.Host.view host.new) }
    ensures holds { Holds ticket.now (sheet_of sheet.new) }
    ensures made { Made X.Host.view X.Host.makes host.old (undone_down_asks rows_most (sheet_of sheet.old) (X.Host.view host.old)
        ticket.now.number (vec_len memory.old.column) (vec_len memory.old.line)) host.new }
    ensures goes { X.Host.goes host.old host.new }
    ensures process { sheet.new.process ≡ sheet.old.process }
    ensures memory { Scratches memory.old memory.new }
{
    let Memory { column, line, .. } = memory;
    for row in (1..=ROWS).rev() {
        match sheet.undo(host, ticket, row, column, line) {
            Ok(()) => {}
            Err(fault) if fault.cause == Cause::NoSuch => {}
            Err(fault) => return Err(fault),
        }
    }
    Ok(())
}

// Undoes the due rows, and finishes the rollback, or parks it where there is a fault.
fn carry_through<X: Host>(
    sheet: &mut Sheet,
    host: &mut X,
    ticket: Ticket,
    memory: &mut Memory,
) -> Result<(), Fault>
    requires { Holds ticket (sheet_of sheet.old) }
    ensures comes { ComesTo (carried (sheet_of sheet.old) (X.Host.view host.old) (vec_len memory.old.column)
        (vec_len memory.old.line)) result (sheet_of sheet.new) (X.Host.view host.new) }
    ensures through { Through (sheet_of sheet.old) result (sheet_of sheet.new) }
    ensures made { Made X.Host.view X.Host.makes host.old (carried_asks (sheet_of sheet.old) (X.Host.view host.old)
        (vec_len memory.old.column) (vec_len memory.old.line)) host.new }
    ensures goes { X.Host.goes host.old host.new }
    ensures process { sheet.new.process ≡ sheet.old.process }
    ensures memory { Scratches memory.old memory.new }
{
    if let Err(fault) = undo_rows(sheet, host, &ticket, memory) {
        sheet.park(ticket).unwrap();
        return Err(fault);
    }
    // no row is due any more, so this is accepted
    sheet.finish(ticket).unwrap();
    Ok(())
}

/// Rolls everything back: drops what runs, undoes each due row, and finishes. Where a row cannot be undone the rollback is parked,
/// and that row's fault is the answer; where the abort is declined, sheet and host stay as they are.
pub fn roll_back_all<X: Host>(
    sheet: &mut Sheet,
    host: &mut X,
    memory: &mut Memory,
) -> Result<(), Fault>
    ensures comes { ComesTo (rolled_back (chart_of sheet.old) (sheet_of sheet.old) (X.Host.view host.old)
        (vec_len memory.old.column) (vec_len memory.old.line)) result (sheet_of sheet.new) (X.Host.view host.new) }
    ensures ends { RollbackEnds (abort_fault (sheet_of sheet.old) (X.Host.view host.old) Complete (vec_len memory.old.column)
        (vec_len memory.old.line)) (sheet_of sheet.old) (aborted (chart_of sheet.old) (sheet_of sheet.old) Complete)
        result (sheet_of sheet.new) }
    ensures none_live { IfOk result (λ u. (k : ℕ) → live ((sheet_of sheet.new).rows.state k) ≡ false) }
    ensures made { Made X.Host.view X.Host.makes host.old (rolled_back_asks (chart_of sheet.old) (sheet_of sheet.old)
        (X.Host.view host.old) (vec_len memory.old.column) (vec_len memory.old.line)) host.new }
    ensures goes { X.Host.goes host.old host.new }
    ensures process { sheet.new.process ≡ sheet.old.process }
    ensures memory { Scratches memory.old memory.new }
{
    let Memory { column, line, .. } = memory;
    let ticket = sheet.abort(host, Mode::Complete, column, line)?;
    carry_through(sheet, host, ticket, memory)
}

/// Takes a parked rollback up again, and carries it through in the same way.
pub fn carry_on<X: Host>(sheet: &mut Sheet, host: &mut X, memory: &mut Memory) -> Result<(), Fault>
    ensures comes { ComesTo (carried_on (sheet_of sheet.old) (X.Host.view host.old) (vec_len memory.old.column)
        (vec_len memory.old.line)) result (sheet_of sheet.new) (X.Host.view host.new) }
    ensures ends { RollbackEnds (resume_fault (sheet_of sheet.old)) (sheet_of sheet.old) (with_phase (sheet_of sheet.old) Undoing)
        result (sheet_of sheet.new) }
    ensures made { Made X.Host.view X.Host.makes host.old (carried_on_asks (sheet_of sheet.old) (X.Host.view host.old)
        (vec_len memory.old.column) (vec_len memory.old.line)) host.new }
    ensures goes { X.Host.goes host.old host.new }
    ensures process { sheet.new.process ≡ sheet.old.process }
    ensures memory { MatchOption (resume_fault (sheet_of sheet.old)) (Scratches memory.old memory.new)
        (λ f. memory.new ≡ memory.old) }
{
    let ticket = sheet.resume()?;
    carry_through(sheet, host, ticket, memory)
}
