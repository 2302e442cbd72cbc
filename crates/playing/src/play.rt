// A journal under way.
ghost use Rattle.club.specs.Hosts.{InOrder};

use crate::summary::CallCounts;
use club::Hosts;
use sheet::Competition;

pub(crate) mod calls;

// A journal that is played: its competition, what was printed so far, and how many calls there were.
#[derive(Drop)]
pub(crate) struct Play {
    pub(crate) competition: Competition<Hosts>,
    pub(crate) printed: String,
    pub(crate) calls: CallCounts,
    ghost order: { InOrder competition.host },
}
