// Fields of bits, set in place.
ghost use Rattle.std.specs.Prelude.{◌≡◌, ◌+◌, ◌-◌, ◌*◌, ◌%◌, ◌^◌, ◌<◌, ◌≤◌, length};
ghost use Rattle.process.specs.Bits.{field};
ghost use Rattle.sheet.specs.Fields.{Sets};

// A word in which the field of `width` bits above the `low` lowest ones has another value.
fn with_field(word: u16, low: usize, width: usize, value: u16) -> u16
    requires narrow { low + width ≤ 16 }
    requires fits { value < 2 ^ width }
    ensures { result + field low width word * 2 ^ low ≡ word + value * 2 ^ low }
{
    let word = u32::from(word);
    let had = (word >> low) % (1 << width);
    (word - (had << low) + (u32::from(value) << low)) as u16
}

/// Sets the field of `width` bits from the bit `at` on, the most significant of the first byte being bit 0. It lies
/// within two of the first 32 bytes; all other bits are kept.
pub(crate) fn set_field(bytes: &mut [u8], at: usize, width: usize, value: u16)
    requires room { 32 ≤ length bytes.old }
    requires inside { at < 248 }
    requires narrow { at % 8 + width ≤ 16 }
    requires fits { value < 2 ^ width }
    ensures { Sets (256 - (at + width)) width value bytes.old bytes.new }
{
    let first = at / 8;
    let word = u16::from_be_bytes([bytes[first], bytes[first + 1]]);
    let word = with_field(word, 16 - at % 8 - width, width, value);
    let [high, low] = word.to_be_bytes();
    bytes[first] = high;
    bytes[first + 1] = low;
}
