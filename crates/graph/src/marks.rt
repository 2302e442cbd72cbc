//! Marks over lent memory.
ghost use Rattle.std.specs.Prelude.{◌≡◌, length, min};
ghost use Rattle.graph.specs.Column.{mark_count, Wiped};

mod methods;

/// How many bytes of a column are marks.
const MARKS: usize = 257;

/// Marks on the points 0 to 256, one byte each, in a column that is lent.
///
/// A shorter column has marks for the points that it has bytes for. When the guard ends, the marks are zeros again.
pub struct Marks<'a> {
    column: &'a mut [u8],
}

impl Drop for Marks<'_> {
    fn drop(self)
        ensures { Wiped self.entry.column.now self.exit.0.now }
    {
        let Marks { column } = self;
        wipe(column);
    }
}

/// How many bytes of `column` are marks.
fn mark_bytes(column: &[u8]) -> usize
    ensures { result ≡ min mark_count (length column.now) }
{
    MARKS.min(column.len())
}

/// Sets the marks of `column` to zero.
fn wipe(column: &mut [u8])
    ensures { Wiped column.old column.new }
{
    let n = mark_bytes(column);
    column[..n].fill(0);
}
