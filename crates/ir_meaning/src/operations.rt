ghost use Rattle.std.specs.Prelude.{◌≡◌, ◌<◌};
ghost use Rattle.oi_base.specs.Words.{modulus};
ghost use Rattle.ir_core.specs.Words.{word_op, word_test};
ghost use Rattle.ir_meaning.specs.Folding.{folded};

use crate::fold::Folded;
use crate::signed::{overflows, signed, word};
use ir_core::{BinOp, Cmp};
use oi_base::{Width, mask};

pub fn unsigned_quotient(w: Width, a: u32, b: u32) -> Folded
    ensures { result ≡ folded (word_op BinOp.Udiv w a b) }
{
    match a.checked_div(b) {
        Some(quotient) => Folded::Word(quotient),
        None => Folded::Unfolded,
    }
}

pub fn unsigned_remainder(w: Width, a: u32, b: u32) -> Folded
    ensures { result ≡ folded (word_op BinOp.Urem w a b) }
{
    match a.checked_rem(b) {
        Some(remainder) => Folded::Word(remainder),
        None => Folded::Unfolded,
    }
}

/// The quotient is rounded towards zero.
pub fn signed_quotient(w: Width, a: u32, b: u32) -> Folded
    requires a_fits { a < modulus w }
    requires b_fits { b < modulus w }
    ensures { result ≡ folded (word_op BinOp.Sdiv w a b) }
{
    if b == 0 || overflows(w, a, b) {
        return Folded::Unfolded;
    }
    Folded::Word(word(w, signed(w, a).wrapping_div(signed(w, b))))
}

/// The remainder has the dividend's sign.
pub fn signed_remainder(w: Width, a: u32, b: u32) -> Folded
    requires a_fits { a < modulus w }
    requires b_fits { b < modulus w }
    ensures { result ≡ folded (word_op BinOp.Srem w a b) }
{
    if b == 0 || overflows(w, a, b) {
        return Folded::Unfolded;
    }
    Folded::Word(word(w, signed(w, a).wrapping_rem(signed(w, b))))
}

pub fn shifted_left(w: Width, a: u32, b: u32) -> Folded
    ensures { result ≡ folded (word_op BinOp.Shl w a b) }
{
    if w.bits() <= b {
        return Folded::Unfolded;
    }
    Folded::Word(mask(w, a.wrapping_shl(b)))
}

/// A logical shift: zeros come in from above.
pub fn shifted_right(w: Width, a: u32, b: u32) -> Folded
    ensures { result ≡ folded (word_op BinOp.Lshr w a b) }
{
    if w.bits() <= b {
        return Folded::Unfolded;
    }
    Folded::Word(a.wrapping_shr(b))
}

/// An arithmetic shift: copies of the sign bit come in from above.
pub fn shifted_right_with_sign(w: Width, a: u32, b: u32) -> Folded
    requires { a < modulus w }
    ensures { result ≡ folded (word_op BinOp.Ashr w a b) }
{
    if w.bits() <= b {
        return Folded::Unfolded;
    }
    Folded::Word(word(w, signed(w, a).wrapping_shr(b)))
}

/// Whether a condition holds of two words.
pub fn holds(c: Cmp, w: Width, a: u32, b: u32) -> bool
    requires a_fits { a < modulus w }
    requires b_fits { b < modulus w }
    ensures { result ≡ word_test c w a b }
{
    match c {
        Cmp::Eq => a == b,
        Cmp::Ne => a != b,
        Cmp::Ugt => a > b,
        Cmp::Uge => a >= b,
        Cmp::Ult => a < b,
        Cmp::Ule => a <= b,
        Cmp::Sgt => signed(w, a) > signed(w, b),
        Cmp::Sge => signed(w, a) >= signed(w, b),
        Cmp::Slt => signed(w, a) < signed(w, b),
        Cmp::Sle => signed(w, a) <= signed(w, b),
    }
}
