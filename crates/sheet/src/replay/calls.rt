// The calls as events.
ghost use Rattle.std.specs.Prelude.{◌≡◌};
ghost use Rattle.model.specs.Run.{start, end, abort, undo, finish, park, resume, listing, reply};
ghost use Rattle.host.specs.Made.{Made};
ghost use Rattle.sheet.specs.Asked.{event_asks};
ghost use Rattle.sheet.specs.Runs.{world_of, process_of, Does};

use super::Competition;
use super::answers::{done, given, listed, row};
use crate::memory::Memory;
use host::Host;
use values::{Answer, Entry, Mode, TicketNumber};

// An event shows a ticket by its numbers, so these calls are made by them.
impl<X: Host> Competition<X> {
    pub(crate) fn start(&mut self, step: u16, predecessors: &[u16], entry: Entry) -> Answer
        ensures does { Does (process_of self.old) (world_of X.Host.view self.old) (start step predecessors.now entry)
            result (world_of X.Host.view self.new) }
        ensures made { Made X.Host.view X.Host.makes self.old.host (event_asks (process_of self.old)
            (world_of X.Host.view self.old) (start step predecessors.now entry)) self.new.host }
        ensures goes { X.Host.goes self.old.host self.new.host }
        ensures process { process_of self.new ≡ process_of self.old }
    {
        row(self.sheet.start(&mut self.host, step, predecessors, entry))
    }

    pub(crate) fn end(&mut self, row: u16) -> Answer
        ensures does { Does (process_of self.old) (world_of X.Host.view self.old) (end row) result (world_of X.Host.view self.new) }
        ensures made { Made X.Host.view X.Host.makes self.old.host (event_asks (process_of self.old)
            (world_of X.Host.view self.old) (end row)) self.new.host }
        ensures goes { X.Host.goes self.old.host self.new.host }
        ensures process { process_of self.new ≡ process_of self.old }
    {
        done(self.sheet.end(&mut self.host, row))
    }

    pub(crate) fn abort(&mut self, mode: Mode) -> Answer
        ensures does { Does (process_of self.old) (world_of X.Host.view self.old) (abort mode) result (world_of X.Host.view self.new) }
        ensures made { Made X.Host.view X.Host.makes self.old.host (event_asks (process_of self.old)
            (world_of X.Host.view self.old) (abort mode)) self.new.host }
        ensures goes { X.Host.goes self.old.host self.new.host }
        ensures process { process_of self.new ≡ process_of self.old }
    {
        let Memory { column, line, .. } = &mut self.memory;
        given(
            self.sheet
                .abort_numbered(&mut self.host, mode, column, line),
        )
    }

    pub(crate) fn undo(&mut self, number: TicketNumber, row: u16) -> Answer
        ensures does { Does (process_of self.old) (world_of X.Host.view self.old) (undo number row) result (world_of X.Host.view self.new) }
        ensures made { Made X.Host.view X.Host.makes self.old.host (event_asks (process_of self.old)
            (world_of X.Host.view self.old) (undo number row)) self.new.host }
        ensures goes { X.Host.goes self.old.host self.new.host }
        ensures process { process_of self.new ≡ process_of self.old }
    {
        let Memory { column, line, .. } = &mut self.memory;
        done(
            self.sheet
                .undo_numbered(&mut self.host, number, row, column, line),
        )
    }

    pub(crate) fn finish(&mut self, number: TicketNumber) -> Answer
        ensures does { Does (process_of self.old) (world_of X.Host.view self.old) (finish number) result (world_of X.Host.view self.new) }
        ensures host { self.new.host ≡ self.old.host }
        ensures process { process_of self.new ≡ process_of self.old }
    {
        done(self.sheet.finish_numbered(number))
    }

    pub(crate) fn park(&mut self, number: TicketNumber) -> Answer
        ensures does { Does (process_of self.old) (world_of X.Host.view self.old) (park number) result (world_of X.Host.view self.new) }
        ensures host { self.new.host ≡ self.old.host }
        ensures process { process_of self.new ≡ process_of self.old }
    {
        done(self.sheet.park_numbered(number))
    }

    pub(crate) fn resume(&mut self) -> Answer
        ensures does { Does (process_of self.old) (world_of X.Host.view self.old) resume result (world_of X.Host.view self.new) }
        ensures host { self.new.host ≡ self.old.host }
        ensures process { process_of self.new ≡ process_of self.old }
    {
        given(self.sheet.resume_numbered())
    }

    pub(crate) fn listing(&mut self) -> Answer
        ensures does { Does (process_of self.old) (world_of X.Host.view self.old) listing result (world_of X.Host.view self.new) }
        ensures host { self.new.host ≡ self.old.host }
        ensures process { process_of self.new ≡ process_of self.old }
    {
        let Memory {
            column,
            line,
            arrows,
            restarts,
            ..
        } = &mut self.memory;
        listed(self.sheet.listing(column, line, arrows, restarts))
    }

    pub(crate) fn reply(&mut self, place: usize) -> Answer
        ensures does { Does (process_of self.old) (world_of X.Host.view self.old) (reply place) result (world_of X.Host.view self.new) }
        ensures host { self.new.host ≡ self.old.host }
        ensures process { process_of self.new ≡ process_of self.old }
    {
        done(self.sheet.reply(place, &mut self.memory.buffer))
    }
}
