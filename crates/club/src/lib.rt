// The hosts of the program: which books it has, how they are joined, and what shuts and opens them.
#![tactic(auto)]

mod commands;
mod hosts;

pub use commands::{Book, Command, Turn, command_for, turn_of};
pub use hosts::{Hosts, balance, new_hosts};
