// The table of a sheet's rows.
ghost use Rattle.std.specs.Prelude.{◌≤◌, vec_len, vec_capacity};
ghost use Rattle.model.specs.Sheets.{Lower};
ghost use Rattle.rows.specs.Columns.{preds_of, Positive};
ghost use Rattle.rows.specs.Followers.{Tell, Tell-prop};

use crate::row::Row;
use rowset::RowSet;

mod by_state;
mod falls;
mod highest;
mod reads;
pub(crate) mod searches;
mod writes;

/// How many rows a table has at most.
const MOST_ROWS: usize = 256;

/// A row does not fit: the table is full, or the rows that it is to follow are more than eight or not all there.
#[derive(Clone, Copy, PartialEq, Eq, Debug, Drop)]
pub struct Unfit;

/// The sets that searches of a table's rows go through: the followers of each row by one arrow, the rows in each
/// state but absent, by the state's number, and the highest row of each step.
#[derive(Drop)]
struct Sets {
    followers: Vec<RowSet>,
    states: [RowSet; 6],
    highest: RowSet,
}

/// The rows of a sheet, numbered from 1, and sets of them.
#[derive(Drop)]
pub struct RowTable {
    rows: Vec<Row>,
    sets: Sets,
    ghost lower: { Lower (preds_of rows.items) },
    ghost positive: { Positive (preds_of rows.items) },
    ghost few: { vec_len rows ≤ 256 },
    ghost reserved: { 256 ≤ vec_capacity rows },
    ghost told: { Tell sets rows.items } by { Tell-prop sets rows.items },
}
