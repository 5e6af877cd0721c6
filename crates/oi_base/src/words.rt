ghost use Rattle.std.specs.Prelude.{◌≡◌, ◌%◌};
ghost use Rattle.oi_base.specs.Words.{bits, modulus, signed_of, word_of};

/// The width of an integer type, in bits.
#[derive(Clone, Copy, Debug, PartialEq, Eq, PartialOrd, Ord, Hash)]
pub enum Width {
    W1,
    W8,
    W16,
    W32,
}

impl Width {
    /// How many bits it has.
    pub fn bits(self) -> u32
        ensures { result ≡ bits self }
    {
        match self {
            Width::W1 => 1,
            Width::W8 => 8,
            Width::W16 => 16,
            Width::W32 => 32,
        }
    }
}

/// The low bits of a word: the word of this width that is equal to it modulo two to the width.
pub fn mask(w: Width, x: u32) -> u32
    ensures { result ≡ x % modulus w }
{
    match w {
        Width::W1 => x % 2,
        Width::W8 => x % 0x100,
        Width::W16 => x % 0x1_0000,
        Width::W32 => x,
    }
}

/// The low bits of a word with the highest of them copied upwards: the word of 32 bits that, in two's
/// complement, is the signed number of the low bits.
pub fn sext(w: Width, x: u32) -> u32
    ensures { result ≡ word_of (modulus Width.W32) (signed_of (modulus w) (x % modulus w)) }
{
    let low = mask(w, x);
    match w {
        Width::W1 if low >= 1 => low + 0xffff_fffe,
        Width::W8 if low >= 0x80 => low + 0xffff_ff00,
        Width::W16 if low >= 0x8000 => low + 0xffff_0000,
        _ => low,
    }
}
