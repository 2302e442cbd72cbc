// A place for each row, or none: where a row is found without a search.
ghost use Rattle.std.specs.Prelude.{◌≡◌, ◌&&◌, cond, nat_lt, Some, None};
ghost use Rattle.host.specs.Keys.{RowKey, is_row, same_row};
ghost use Rattle.host.specs.Places.{place_for, places_most};

use crate::keys::{RowKey, is_row};

// Places are the numbers below this one, so that one more than a place fits 16 bits.
const PLACES: usize = 65535;

/// A place for each row, or none.
// At the row's number stands one more than the place, or 0 for none.
#[derive(Drop)]
pub struct Places {
    next: [u16; 257],
}

impl Places {
    /// No row has a place.
    pub fn new() -> Places
        ensures { (n : RowKey) → place_for result n ≡ None }
    {
        Places { next: [0; 257] }
    }

    /// The place of a row.
    pub fn get(&self, row: RowKey) -> Option<usize>
        ensures { result ≡ place_for self.now row }
    {
        let next = *self.next.get(usize::from(row))?;
        usize::from(next).checked_sub(1)
    }

    /// Gives a row a place; nothing where the number is no row's, or the place is 65535 or more.
    pub fn set(&mut self, row: RowKey, place: usize)
        ensures { (n : RowKey) → place_for self.new n
            ≡ cond (is_row row && (nat_lt place places_most && same_row row n)) (Some place) (place_for self.old n) }
    {
        if is_row(row) && place < PLACES {
            self.next[usize::from(row)] = place as u16 + 1;
        }
    }
}
