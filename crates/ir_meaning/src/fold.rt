ghost use Rattle.std.specs.Prelude.{◌≡◌, ◌<◌, ◌≢◌, ◌↔◌, ℕ};
ghost use Rattle.oi_base.specs.Words.{modulus};
ghost use Rattle.ir_core.specs.Formed.{is_cast};
ghost use Rattle.ir_core.specs.Memory.{Bits, Memory};
ghost use Rattle.ir_core.specs.Rows.{Gives, as_word, bin, cast_read, icmp};
ghost use Rattle.ir_meaning.specs.Folding.{GivesNoWord};

use crate::operations::{
    holds, shifted_left, shifted_right, shifted_right_with_sign, signed_quotient, signed_remainder,
    unsigned_quotient, unsigned_remainder,
};
use ir_core::{BinOp, CastOp, Cmp, Scalar};
use oi_base::{Width, mask, sext};

/// What an operation on known words folds to: the word that it gives, or nothing, as it gives poison or its
/// behaviour is undefined.
#[derive(Clone, Copy, Debug, PartialEq, Eq)]
pub enum Folded {
    Word(u32),
    Unfolded,
}

/// Folds an operation on two words of a width (LangRef, "Binary Operations" and "Bitwise Binary Operations").
/// `Unfolded` comes where a divisor is 0, where the least signed number is divided by -1, and where a shift is
/// by the width or more.
pub fn fold_op(op: BinOp, w: Width, a: u32, b: u32) -> Folded
    requires a_fits { a < modulus w }
    requires b_fits { b < modulus w }
    ensures word { (x : ℕ) → (result ≡ Folded.Word x) ↔ (bin op w (Bits a) (Bits b) ≡ Gives (Bits x)) }
    ensures unfolded { (result ≡ Folded.Unfolded) ↔ GivesNoWord (bin op w (Bits a) (Bits b)) }
    ensures fits { (x : ℕ) → result ≡ Folded.Word x → x < modulus w }
{
    match op {
        BinOp::Add => Folded::Word(mask(w, a.wrapping_add(b))),
        BinOp::Sub => Folded::Word(mask(w, a.wrapping_sub(b))),
        BinOp::Mul => Folded::Word(mask(w, a.wrapping_mul(b))),
        BinOp::Udiv => unsigned_quotient(w, a, b),
        BinOp::Sdiv => signed_quotient(w, a, b),
        BinOp::Urem => unsigned_remainder(w, a, b),
        BinOp::Srem => signed_remainder(w, a, b),
        BinOp::Shl => shifted_left(w, a, b),
        BinOp::Lshr => shifted_right(w, a, b),
        BinOp::Ashr => shifted_right_with_sign(w, a, b),
        BinOp::And => Folded::Word(a & b),
        BinOp::Or => Folded::Word(a | b),
        BinOp::Xor => Folded::Word(a ^ b),
    }
}

/// Folds a condition on two words of a width: to the word 1 where it holds, else to 0 (LangRef, "icmp
/// Instruction"). It never gives `Unfolded`.
pub fn fold_icmp(c: Cmp, w: Width, a: u32, b: u32) -> Folded
    requires a_fits { a < modulus w }
    requires b_fits { b < modulus w }
    ensures word { (m : Memory) (x : ℕ) → (result ≡ Folded.Word x) ↔ (icmp m c (Scalar.Word w) (Bits a) (Bits b) ≡ Gives (Bits x)) }
    ensures never_unfolded { result ≢ Folded.Unfolded }
    ensures fits { (x : ℕ) → result ≡ Folded.Word x → x < modulus Width.W1 }
{
    Folded::Word(u32::from(holds(c, w, a, b)))
}

/// Folds a conversion of a word of the first width to the second (LangRef, "Conversion Operations"). It never
/// gives `Unfolded`.
pub fn fold_cast(c: CastOp, from: Width, to: Width, a: u32) -> Folded
    requires converts { is_cast c from to }
    requires a_fits { a < modulus from }
    ensures word { (x : ℕ) → (result ≡ Folded.Word x) ↔ (cast_read c from to (as_word (modulus from) (Bits a)) ≡ Gives (Bits x)) }
    ensures never_unfolded { result ≢ Folded.Unfolded }
    ensures fits { (x : ℕ) → result ≡ Folded.Word x → x < modulus to }
{
    match c {
        CastOp::Zext => Folded::Word(a),
        CastOp::Sext => Folded::Word(mask(to, sext(from, a))),
        CastOp::Trunc => Folded::Word(mask(to, a)),
    }
}
