// The score book: a host with a record for each row, in a table that it is made with.
#![tactic(auto)]

mod book;
mod records;

pub use book::ScoreBook;
pub use records::Record;
