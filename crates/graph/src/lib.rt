//! A queue and marks over lent memory, and the traversal that marks the points of a graph that arrows lead to.
#![tactic(auto)]

pub mod marks;
pub mod queue;
pub mod reach;
pub mod scratch;
mod traversal;
