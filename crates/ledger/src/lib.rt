// The ledger: a host that writes a line for each change, in a table that it is made with.
#![tactic(auto)]

mod book;
mod lines;

pub use book::Ledger;
pub use lines::{LINES, Line, Mark};
