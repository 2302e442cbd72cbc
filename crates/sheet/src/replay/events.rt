// An event: a call, other memory, or a command for the host.
ghost use Rattle.std.specs.Prelude.{◌≡◌, true, IfOk, IfErr, OnErr};
ghost use Rattle.values.specs.declared.Answer.TheVariants.{Done};
ghost use Rattle.host.specs.Commands.{Controlled, shown_after};
ghost use Rattle.model.specs.Run.{lend, control};
ghost use Rattle.sheet.specs.Asked.{event_asks};
ghost use Rattle.sheet.specs.Happenings.{happening, command_of, refused_by, lends};
ghost use Rattle.sheet.specs.Lent.{zeros};
ghost use Rattle.sheet.specs.Runs.{world_of, process_of, Does, HostAfter, ShownAfter};

use super::Competition;
use crate::events::{Event, Sizes};
use crate::memory::Memory;
use host::Controls;
use std::alloc::{AllocError, Global};
use values::{Answer, Fault};

impl<X: Controls> Competition<X> {
    fn lend(&mut self, heap: Global, sizes: Sizes) -> Result<Answer, AllocError>
        ensures does { IfOk result (λ a. Does (process_of self.old) (world_of X.Host.view self.old) (lend (zeros sizes)) a
            (world_of X.Host.view self.new)) }
        ensures same { OnErr result (self.new ≡ self.old) }
        ensures host { self.new.host ≡ self.old.host }
        ensures process { process_of self.new ≡ process_of self.old }
    {
        self.memory = Memory::new(heap, sizes)?;
        Ok(Answer::Done)
    }

    // Gives the host a command: the fault with which it declines, if it does.
    fn control(&mut self, command: &X::Command) -> Option<Fault>
        ensures does { Does (process_of self.old) (world_of X.Host.view self.old) (control (X.Host.view self.new.host).shut)
            Done (world_of X.Host.view self.new) }
        ensures left { Controlled (X.Controls.declines self.old.host command.now) X.Controls.leaves
            self.old.host command.now self.new.host }
        ensures shown { X.Host.view self.new.host ≡ shown_after (X.Controls.declines self.old.host command.now)
            (X.Controls.shuts self.old.host command.now) (X.Host.view self.old.host) }
        ensures refused { result ≡ X.Controls.declines self.old.host command.now }
        ensures process { process_of self.new ≡ process_of self.old }
    {
        self.host.control(command).err()
    }

    // Makes a call, lends other memory, or commands the host; and the fault of a declined command.
    pub(crate) fn answer(
        &mut self,
        heap: Global,
        event: &Event<X::Command>,
    ) -> Result<(Answer, Option<Fault>), AllocError>
        ensures does { IfOk result (λ a. Does (process_of self.old) (world_of X.Host.view self.old)
            (happening (X.Host.view self.new.host).shut event.now) a.0 (world_of X.Host.view self.new)) }
        ensures host { IfOk result (λ _. HostAfter X.Host.view X.Host.makes X.Host.goes X.Controls.declines X.Controls.leaves
            self.old.host (command_of event.now) (event_asks (process_of self.old) (world_of X.Host.view self.old)
            (happening (X.Host.view self.new.host).shut event.now)) self.new.host) }
        ensures shown { IfOk result (λ _. ShownAfter X.Host.view X.Controls.declines X.Controls.shuts
            self.old.host (command_of event.now) self.new.host) }
        ensures refused { IfOk result (λ a. a.1 ≡ refused_by X.Controls.declines self.old.host (command_of event.now)) }
        ensures lends { IfErr result (λ _. lends event.now ≡ true) }
        ensures same { OnErr result (self.new ≡ self.old) }
        ensures process { process_of self.new ≡ process_of self.old }
    {
        let answer = match event {
            Event::Start {
                step,
                predecessors,
                entry,
            } => self.start(*step, predecessors, *entry),
            Event::End { row } => self.end(*row),
            Event::Abort { mode } => self.abort(*mode),
            Event::Undo { ticket, row } => self.undo(*ticket, *row),
            Event::Finish { ticket } => self.finish(*ticket),
            Event::Park { ticket } => self.park(*ticket),
            Event::Resume => self.resume(),
            Event::Listing => self.listing(),
            Event::Reply { place } => self.reply(*place),
            Event::Lend { sizes } => self.lend(heap, *sizes)?,
            Event::Control { command } => return Ok((Answer::Done, self.control(command))),
        };
        Ok((answer, None))
    }
}
