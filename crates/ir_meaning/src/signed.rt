ghost use Rattle.std.specs.Prelude.{◌≡◌, ◌<◌, ◌/◌, ◌-◌, nat_eq, ◌&&◌};
ghost use Rattle.oi_base.specs.Words.{modulus, signed_of, word_of};

use oi_base::{Width, mask, sext};

/// The signed number of a word, in two's complement.
pub fn signed(w: Width, a: u32) -> i32
    requires { a < modulus w }
    ensures { result ≡ signed_of (modulus w) a }
{
    sext(w, a).cast_signed()
}

/// The word of a signed number, modulo two to the width.
pub fn word(w: Width, number: i32) -> u32
    ensures { result ≡ word_of (modulus w) number }
{
    mask(w, number.cast_unsigned())
}

/// Whether the signed quotient of two words is none: that of the least number by -1 is too large by one.
pub fn overflows(w: Width, a: u32, b: u32) -> bool
    ensures { result ≡ (nat_eq a (modulus w / 2)) && (nat_eq b (modulus w - 1)) }
{
    let least = 1 << (w.bits() - 1);
    a == least && b == mask(w, u32::MAX)
}
