// The reader of stored processes.
ghost use Rattle.std.specs.Prelude.{◌+◌, ◌^◌, ◌<◌, length};

use crate::cursor::Cursor;

mod methods;
mod records;

/// Reads a stored process record by record.
#[derive(Drop)]
pub struct Reader<'a> {
    rest: &'a [u8],
    cursor: Cursor,
    ghost fits: { cursor.place + length rest.now < 2 ^ 64 },
}
