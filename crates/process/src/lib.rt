// A stored process: a reader of its records, and the process that is accepted.
#![tactic(auto)]

mod accepted;
mod bits;
mod cursor;
pub mod parts;
mod reader;
mod shape;
pub mod tables;

pub use accepted::Process;
pub use accepted::read::{COLUMN, LINE, is_enough, read};
pub use reader::Reader;
