// The score book.
ghost use Rattle.std.specs.Prelude.{◌≡◌, ◌≤◌, true, length};
ghost use Rattle.host.specs.Keys.{RowKey, rows_most};
ghost use Rattle.host.specs.Places.{place_for};
ghost use Rattle.scorebook.specs.Records.{place_in, scores, well};

use crate::records::Record;
use host::{Places, Table};

mod changes;
pub(crate) mod hosting;

/// A host that takes scores. Each row that begins gets the next free record of a table, of which 256 at most are used.
#[derive(Drop)]
pub struct ScoreBook {
    table: Table<Record>,
    places: Places,
    ghost within: { length table.used ≤ rows_most },
    ghost sound: { well table.used ≡ true },
    ghost scores: { scores table.used ≡ true },
    ghost placed: { (row : RowKey) → place_for places row ≡ place_in table.used row },
}
