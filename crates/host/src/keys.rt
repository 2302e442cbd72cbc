// How a host knows a row.
ghost use Rattle.std.specs.Prelude.{◌≡◌};
ghost use Rattle.host.specs.Keys.{key_of, is_row};

/// A row as a host knows it.
pub type RowKey = u16;

/// The most rows that there can be.
pub const ROWS: u16 = 256;

/// The key of the row with this number: the one place where a key is made.
pub fn row_key(number: u16) -> RowKey
    ensures { result ≡ key_of number }
{
    number
}

/// Whether a host can know this row: only rows 1 to 256 are known to one.
pub fn is_row(row: RowKey) -> bool
    ensures { result ≡ is_row row }
{
    (1..=ROWS).contains(&row)
}
