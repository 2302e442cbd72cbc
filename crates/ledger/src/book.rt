// The ledger.
ghost use Rattle.std.specs.Prelude.{◌≡◌, ◌*◌, ◌/◌, ◌≤◌, min, true, false, length, pos, ◌+ℤ◌, ◌≤ℤ◌, is_some};
ghost use Rattle.host.specs.Keys.{RowKey, is_row};
ghost use Rattle.host.specs.Known.{known_by};
ghost use Rattle.host.specs.Places.{place_for};
ghost use Rattle.host.specs.Table.{capacity_of};
ghost use Rattle.ledger.specs.Lines.{last_of, last_place, begun_in, kept_by, lines_most, fees};
ghost use Rattle.ledger.specs.Fees.{posted, standing_sum, reserved};

use crate::lines::Line;
use host::{Places, Table};

mod changes;
pub(crate) mod hosting;

/// A host that takes fees. Each change is one line more, in a table of which 768 lines at most are used.
#[derive(Drop)]
pub struct Ledger {
    table: Table<Line>,
    places: Places,
    begun: usize,
    ghost within: { length table.used ≤ lines_most },
    ghost counted: { begun ≡ begun_in table.used },
    ghost placed: { (row : RowKey) → place_for places row ≡ last_place table.used row },
    ghost few: { begun ≤ min lines_most (capacity_of table) / 3 },
    ghost fees: { fees table.used ≡ true },
    ghost rows: { (row : RowKey) → is_row row ≡ false → is_some (last_of table.used row) ≡ false },
    ghost reserve: { (pos (length table.used) +ℤ reserved table.used) ≤ℤ pos (3 * begun) },
    ghost balanced: { posted table.used ≡ standing_sum (known_by (kept_by 0 table.used)) },
}
