// Fields of bits in a number.
ghost use Rattle.std.specs.Prelude.{◌≡◌, ◌<◌, ◌==◌, [], ◌∷◌};
ghost use Rattle.process.specs.Bits.{field, pack, two_bytes};

/// The field of `width` bits above the `low` lowest ones.
pub(crate) fn field(word: u32, low: u32, width: u32) -> u32
    requires { (low < 32) × (width < 32) }
    ensures { result ≡ field low width word }
{
    (word >> low) % (1 << width)
}

/// Whether the bit above the `low` lowest ones is set.
pub(crate) fn bit(word: u32, low: u32) -> bool
    requires { low < 32 }
    ensures { result ≡ (field low 1 word == 1) }
{
    field(word, low, 1) == 1
}

/// Two bytes as a number, the most significant first.
// The proof of `read_step` goes by this contract.
pub(crate) fn word2(a: u8, b: u8) -> u32
    ensures { result ≡ pack two_bytes (a ∷ b ∷ []) }
{
    u16::from_be_bytes([a, b]) as u32
}
