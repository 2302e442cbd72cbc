// The hosts of the program, and what the treasurer asks of them.
ghost use Rattle.std.specs.Prelude.{◌≡◌, IfOk};
ghost use Rattle.host.specs.View.{Fresh};
ghost use Rattle.club.specs.Hosts.{hosts_view, opening_hosts, switches_of, all_on, InOrder, fees_standing};

use host::{Pair, Switch};
use ledger::{Ledger, Line};
use scorebook::{Record, ScoreBook};
use std::alloc::{AllocError, Global};
use values::Kind;

/// Fees go to the ledger and everything else to the score book, each under a switch of its own.
pub type Hosts = Pair<Switch<Ledger>, Switch<ScoreBook>>;

/// New hosts, whose tables have so many records and lines.
pub fn new_hosts(heap: Global, scores: u16, ledger: u16) -> Result<Hosts, AllocError>
    ensures shows { IfOk result (λ h. hosts_view h ≡ opening_hosts scores ledger) }
    ensures on { IfOk result (λ h. switches_of h ≡ all_on) }
    ensures order { IfOk result (λ h. InOrder h) }
    ensures fresh { IfOk result (λ h. Fresh (hosts_view h)) }
{
    let ledger = Ledger::new(vec![in heap; Line::UNUSED; usize::from(ledger)]?);
    let scores = ScoreBook::new(vec![in heap; Record::UNUSED; usize::from(scores)]?);
    Ok(Pair::new(Kind::Fee, Switch::new(ledger), Switch::new(scores)))
}

/// The ledger's balance: the sum of the fees that stand.
pub fn balance(hosts: &Hosts) -> i64
    ensures { InOrder hosts.now → result ≡ fees_standing (hosts_view hosts.now) }
{
    hosts.first().inner().balance()
}
