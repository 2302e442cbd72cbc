//! The sheet of a competition: the calls that write it, and events as values.
#![tactic(auto)]

mod bits;
mod charts;
mod events;
mod memory;
mod replay;
mod sheets;
mod tables;
mod ticket;

pub use events::{End, Event, Replayed, Sizes, Taken};
pub use memory::Memory;
pub use replay::Competition;
pub use sheets::{RowCounts, Sheet, Summary};
pub use ticket::Ticket;
