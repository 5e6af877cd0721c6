ghost use Rattle.std.specs.Prelude.{◌≡◌, pos};
ghost use Rattle.oi_base.specs.Words.{modulus, word_of};
ghost use Rattle.std.specs.List.{list_all};
ghost use Rattle.module_rules.specs.Faults.{fits, fits_type, count_fits};

use ir_core::{IrType, TypedCount};
use oi_base::Width;

/// Whether each number fits its type.
pub fn counts_fit(counts: &[TypedCount]) -> bool
    ensures { result ≡ list_all count_fits counts.now }
{
    for count in counts {
        if !count_fits(count) {
            return false;
        }
    }
    true
}

/// Whether a number fits its type.
pub fn count_fits(count: &TypedCount) -> bool
    ensures { result ≡ count_fits count.now }
{
    fits_type(&count.ty, count.count)
}

/// Whether a type is an integer type that a number fits.
pub fn fits_type(t: &IrType, number: i128) -> bool
    ensures { result ≡ fits_type t.now number }
{
    match t {
        IrType::Int(width) => fits(*width, number),
        _ => false,
    }
}

/// Whether an integer of a width w lies in -2^(w-1) to 2^w - 1.
fn fits(w: Width, number: i128) -> bool
    ensures { result ≡ fits w number }
{
    let words = words(w);
    -(words / 2) <= number && number < words
}

/// How many words a width has.
pub fn words(w: Width) -> i128
    ensures { result ≡ pos (modulus w) }
{
    match w {
        Width::W1 => 2,
        Width::W8 => 0x100,
        Width::W16 => 0x1_0000,
        Width::W32 => 0x1_0000_0000,
    }
}

/// The word of a width that is equal to a number modulo two to the width.
pub fn word_of(w: Width, number: i128) -> u32
    ensures { result ≡ word_of (modulus w) number }
{
    number.rem_euclid(words(w)) as u32
}
