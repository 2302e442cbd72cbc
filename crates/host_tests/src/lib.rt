// Tests of the hosts together: pairs, switches, a deeper stack, and a host that keeps more than it shows.
#![tactic(auto)]

mod counting;

pub use counting::Counting;

#[cfg(test)]
mod tests;
