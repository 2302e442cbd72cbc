// A competition, event after event.
ghost use Rattle.std.specs.Prelude.{◌≡◌, true, [], ◌∷◌, length, take, drop, IfOk, IfErr, OnErr};
ghost use Rattle.std.specs.List.{zip};
ghost use Rattle.host.specs.Known.{Sorted};
ghost use Rattle.host.specs.View.{Fresh};
ghost use Rattle.model.specs.Run.{world};
ghost use Rattle.sheet.specs.Happenings.{history_of, lends};
ghost use Rattle.sheet.specs.Lent.{lent_of};
ghost use Rattle.sheet.specs.SheetOf.{sheet_of, chart_of};
ghost use Rattle.sheet.specs.Runs.{world_of, process_of, Takes, TakesAll, GoesOn, Belong, Ended};

use crate::events::{End, Event, Replayed, Taken};
use crate::memory::Memory;
use crate::sheets::Sheet;
use host::{Controls, Host};
use std::alloc::{AllocError, Global};

mod answers;
mod calls;
mod events;

/// A competition under way: its sheet, its host, and the memory that its calls are lent.
#[derive(Drop)]
pub struct Competition<X> {
    sheet: Sheet,
    host: X,
    memory: Memory,
}

impl<X: Host> Competition<X> {
    /// A competition with this sheet, at this host, in this memory.
    pub fn new(sheet: Sheet, host: X, memory: Memory) -> Competition<X>
        ensures world { world_of X.Host.view result ≡ world (sheet_of sheet) (X.Host.view host) (lent_of memory) }
        ensures process { process_of result ≡ chart_of sheet }
        ensures host { result.host ≡ host }
        ensures sorted { Fresh (X.Host.view host) → Sorted X.Host.view X.Host.holds result.host }
    {
        Competition {
            sheet,
            host,
            memory,
        }
    }

    /// The sheet.
    pub fn sheet(&self) -> &Sheet
        ensures { result.now ≡ self.now.sheet }
    {
        &self.sheet
    }

    /// The host.
    pub fn host(&self) -> &X
        ensures { result.now ≡ self.now.host }
    {
        &self.host
    }

    /// The memory that calls are lent, as the last call left it.
    pub fn memory(&self) -> &Memory
        ensures { result.now ≡ self.now.memory }
    {
        &self.memory
    }

    /// Parts the competition into its sheet, its host and its memory.
    pub fn into_parts(self) -> (Sheet, X, Memory)
        ensures sheet { result.0 ≡ self.sheet }
        ensures host { result.1 ≡ self.host }
        ensures memory { result.2 ≡ self.memory }
    {
        let Competition {
            sheet,
            host,
            memory,
        } = self;
        (sheet, host, memory)
    }
}

impl<X: Controls> Competition<X> {
    /// Takes one event: a call is made, other memory is lent, or the host is commanded. Only where other memory is to be lent may
    /// memory run out, and then nothing changes.
    pub fn take(&mut self, heap: Global, event: &Event<X::Command>) -> Result<Taken, AllocError>
        ensures takes { IfOk result (λ t. Takes X.Host.view X.Host.makes X.Host.goes X.Controls.declines X.Controls.shuts X.Controls.leaves
            self.old event.now t self.new) }
        ensures law { IfOk result (λ t. GoesOn (process_of self.old) (world_of X.Host.view self.old)
            (history_of (event.now ∷ []) (t ∷ [])) (world_of X.Host.view self.new)) }
        ensures sorted { Sorted X.Host.view X.Host.holds self.old.host → Sorted X.Host.view X.Host.holds self.new.host }
        ensures belong { IfOk result (λ _. Belong X.Host.view X.Host.holds self.old self.new) }
        ensures lends { IfErr result (λ _. lends event.now ≡ true) }
        ensures same { OnErr result (self.new ≡ self.old) }
        ensures process { process_of self.new ≡ process_of self.old }
    {
        let (answer, refused) = self.answer(heap, event)?;
        let shut = self.host.is_shut();
        Ok(Taken {
            answer,
            shut,
            refused,
        })
    }

    /// Takes the events of a list, one after another, and tells of each in its place, as far as the places go. Where memory runs
    /// out it stops before an event that lends other memory.
    pub fn replay(
        &mut self,
        heap: Global,
        events: &[Event<X::Command>],
        places: &mut [Taken],
    ) -> Replayed
        ensures takes { TakesAll X.Host.view X.Host.makes X.Host.goes X.Controls.declines X.Controls.shuts X.Controls.leaves
            self.old (zip events.now (take result.taken places.new)) self.new }
        ensures law { GoesOn (process_of self.old) (world_of X.Host.view self.old)
            (history_of events.now (take result.taken places.new)) (world_of X.Host.view self.new) }
        ensures sorted { Sorted X.Host.view X.Host.holds self.old.host → Sorted X.Host.view X.Host.holds self.new.host }
        ensures belong { Belong X.Host.view X.Host.holds self.old self.new }
        ensures rest { drop result.taken places.new ≡ drop result.taken places.old }
        ensures end { Ended result.end events.now (length places.old) result.taken }
        ensures process { process_of self.new ≡ process_of self.old }
    {
        let most = events.len().min(places.len());
        for i in 0..most {
            match self.take(heap, &events[i]) {
                Ok(taken) => places[i] = taken,
                Err(error) => {
                    return Replayed {
                        taken: i,
                        end: End::Memory(error),
                    };
                }
            }
        }
        Replayed {
            taken: most,
            end: End::at_most(events, places.len()),
        }
    }
}
