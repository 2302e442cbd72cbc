// The tables that a listing writes.
ghost use Rattle.std.specs.Prelude.{◌≡◌, ◌+◌, ◌^◌, ◌<◌, [], ◌∷◌, length};
ghost use Rattle.sheet.specs.Listings.{only_if, Puts};

/// Puts an item at a place of a table, if the table has that place. Gives the place after it.
pub(crate) fn put<T: Copy>(item: T, table: &mut [T], at: usize) -> usize
    requires { at + 1 < 2 ^ 64 }
    ensures { Puts (item ∷ []) at table.old result table.new }
{
    if at < table.len() {
        table[at] = item;
    }
    at + 1
}

/// Puts an item if it is wanted.
pub(crate) fn put_if<T: Copy>(is_wanted: bool, item: T, table: &mut [T], at: usize) -> usize
    requires { at + 1 < 2 ^ 64 }
    ensures { Puts (only_if is_wanted item) at table.old result table.new }
{
    if is_wanted { put(item, table, at) } else { at }
}
