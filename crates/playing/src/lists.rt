// Lists as they are printed: items with commas between, and bytes in hex digits.
ghost use Rattle.std.specs.Prelude.{List, ℕ, Some, decimal};
ghost use Rattle.std.specs.Fmt.{DisplaysOnOk};
ghost use Rattle.playing.specs.Spelled.{arrow_text, parted, hex_text};

use std::fmt;
use values::RowArrow;

// An item of a list.
// A trait of this crate, so that `RowArrow`, which is another crate's, can have it.
pub(crate) trait Item {
    // how it is written
    ghost text: { Self → List ℕ };

    fn write<W: fmt::Write>(&self, f: &mut fmt::Formatter<W>) -> fmt::Result
        ensures { DisplaysOnOk W.write_str_gives f.old result (Some (text self.now)) f.new };
}

impl Item for u16 {
    ghost text = { decimal };

    fn write<W: fmt::Write>(&self, f: &mut fmt::Formatter<W>) -> fmt::Result {
        let number = *self;
        write!(f, "{number}")
    }
}

impl Item for RowArrow {
    ghost text = { arrow_text };

    fn write<W: fmt::Write>(&self, f: &mut fmt::Formatter<W>) -> fmt::Result {
        let RowArrow { from, to } = *self;
        write!(f, "{from}>{to}")
    }
}

// Items with commas between; a dash where there are none.
#[derive(Clone, Copy, Drop)]
pub(crate) struct Parted<'a, T>(pub(crate) &'a [T]);

impl<T: Item> fmt::Display for Parted<'_, T> {
    ghost output = { λ x. Some (parted T.text x.0.now) };

    fn fmt<W: fmt::Write>(&self, f: &mut fmt::Formatter<W>) -> fmt::Result {
        let [first, rest @ ..] = self.0 else {
            return f.write_str("-");
        };
        first.write(f)?;
        for item in rest {
            f.write_str(",")?;
            item.write(f)?;
        }
        Ok(())
    }
}

// Bytes in lower-case hex digits, two a byte.
#[derive(Clone, Copy, Drop)]
pub(crate) struct Hex<'a>(pub(crate) &'a [u8]);

impl fmt::Display for Hex<'_> {
    ghost output = { λ x. Some (hex_text x.0.now) };

    fn fmt<W: fmt::Write>(&self, f: &mut fmt::Formatter<W>) -> fmt::Result {
        for &byte in self.0 {
            write!(f, "{byte:02x}")?;
        }
        Ok(())
    }
}
