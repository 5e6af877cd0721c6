ghost use Rattle.std.specs.Prelude.{◌≡◌, ◌<◌, IfSome};
ghost use Rattle.oi_base.specs.Words.{modulus};
ghost use Rattle.const_fold.specs.Operands.{word_in, constant, same_op};

use ir_core::FlatOp;
use oi_base::{Width, mask};

/// The word of a width that an operand is, if it is one.
pub fn word_in(w: Width, o: FlatOp) -> Option<u32>
    ensures word { result ≡ word_in w o }
    ensures fits { IfSome result (λ a. a < modulus w) }
{
    match o {
        FlatOp::Word(a) => { if mask(w, a) == a { Some(a) } else { None } }
        _ => None,
    }
}

/// The operand itself, where it is a constant.
pub fn constant(o: FlatOp) -> Option<FlatOp>
    ensures { result ≡ constant o }
{
    match o {
        FlatOp::Reg(_) => None,
        _ => Some(o),
    }
}

/// Whether two operands are one.
pub fn same_op(a: FlatOp, b: FlatOp) -> bool
    ensures { result ≡ same_op a b }
{
    match (a, b) {
        (FlatOp::Reg(r), FlatOp::Reg(q)) => r.0 == q.0,
        (FlatOp::Word(x), FlatOp::Word(y)) => x == y,
        (FlatOp::Null, FlatOp::Null) => true,
        (FlatOp::Address(g, k), FlatOp::Address(h, l)) => g == h && k == l,
        (FlatOp::Poison, FlatOp::Poison) => true,
        _ => false,
    }
}
