// What a host is, what shuts and opens one, and the two hosts that stand on other hosts.
#![tactic(auto)]

mod calls;
mod declines;
mod hosts;
mod keys;
mod pair;
mod places;
mod switch;
mod table;

pub use calls::{Call, make_all};
pub use declines::declined;
pub use hosts::{Controls, Host, NoCommand};
pub use keys::{ROWS, RowKey, is_row, row_key};
pub use pair::{Pair, PairCommand};
pub use places::Places;
pub use switch::{Switch, SwitchCommand};
pub use table::Table;
