//! The rows of a sheet: a table that is read and written by row numbers, and its arrows as graphs.
#![tactic(auto)]

mod counted;
mod graphs;
mod paths;
mod row;
mod steps;
mod struck;
mod table;

pub use row::{Predecessors, Row, first_eight};
pub use steps::step_at;
pub use table::{RowTable, Unfit};
