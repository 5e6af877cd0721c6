ghost use Rattle.std.specs.Prelude.{◌≡◌, ◌+◌, ◌*◌, ◌<◌, ◌≤◌, ◌^◌};
ghost use Rattle.rv_isa.specs.Words.{field as field_of, low_bits as low_bits_of};

/// The bits `high` to `low` of a word, as a number.
pub fn field(word: u32, high: u32, low: u32) -> u32
    requires order { low ≤ high }
    requires narrow { high < low + 31 }
    requires inside { high < 32 }
    ensures { result ≡ field_of word high low }
{
    (word >> low) % (1 << (high + 1 - low))
}

/// The low bits of a signed number in two's complement.
pub fn low_bits(count: u32, number: i32) -> u32
    requires { count < 32 }
    ensures { result ≡ low_bits_of count number }
{
    number.cast_unsigned() % (1 << count)
}

/// A word with one more field above its lower bits.
pub fn with(word: u32, bit: u32, field: u32) -> u32
    requires bit { bit < 32 }
    requires below { word < 2 ^ bit }
    requires fits { field * 2 ^ bit < 2 ^ 32 }
    ensures { result ≡ word + field * 2 ^ bit }
{
    word | field << bit
}
