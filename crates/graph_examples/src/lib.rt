//! Two graphs, and a caller of the traversal of any graph.
#![tactic(auto)]

pub mod arrow_list;
pub mod chain;
pub mod leads;
