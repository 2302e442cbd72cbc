// The competition of a journal, before its first event.
ghost use Rattle.std.specs.Prelude.{◌≡◌, IfOk};
ghost use Rattle.process.specs.Accepted.{tables_of};
ghost use Rattle.sheet.specs.Runs.{world_of, process_of};
ghost use Rattle.club.specs.Hosts.{hosts_view, switches_of, all_on, InOrder};
ghost use Rattle.playing.specs.Played.{first_world};

use club::{Hosts, new_hosts};
use journal::Journal;
use process::Process;
use sheet::{Competition, Memory, Sheet, Sizes};
use std::alloc::{AllocError, Global};

// The memory that calls are lent before a journal says otherwise.
const FIRST_SIZES: Sizes = Sizes {
    column: 257,
    line: 256,
    arrows: 32640,
    restarts: 257,
    buffer: 32,
};

/// The competition of a journal before its first event: a blank sheet of this process at new hosts, in the first memory.
pub fn competition(
    heap: Global,
    journal: &Journal,
    process: Process,
) -> Result<Competition<Hosts>, AllocError>
    ensures world { IfOk result (λ x. world_of hosts_view x ≡ first_world journal.now.serial journal.now.scores journal.now.ledger) }
    ensures process { IfOk result (λ x. process_of x ≡ tables_of process) }
    ensures on { IfOk result (λ x. switches_of x.host ≡ all_on) }
    ensures order { IfOk result (λ x. InOrder x.host) }
{
    let sheet = Sheet::new(heap, process, journal.serial)?;
    let hosts = new_hosts(heap, journal.scores, journal.ledger)?;
    let memory = Memory::new(heap, FIRST_SIZES)?;
    Ok(Competition::new(sheet, hosts, memory))
}
