ghost use Rattle.std.specs.Prelude.{◌≡◌};
ghost use Rattle.oi_base.specs.Words.{modulus, word_of};
ghost use Rattle.ir_core.specs.declared.constant.Const as consts;
ghost use Rattle.ir_core.specs.Constants.{width_of, scalar_of, zero_of, number_word, constant, field_number};
ghost use Rattle.site_inliner.specs.Measured.{IsMeasuredConst, IsMeasuredValue};
ghost use Rattle.site_inliner.specs.Parts.{value_in, typed_in};

use crate::locals::Locals;
use crate::offsets::const_bytes;
use ir_core::{Const, FlatOp, IrType, Operand, Scalar, TypedOperand};
use module_rules::words;
use oi_base::Width;

/// The width of an integer type; no other type has one.
pub fn width_of(t: &IrType) -> Width
    ensures { result ≡ width_of t.now }
{
    match t {
        IrType::Int(w) => *w,
        _ => Width::W32,
    }
}

/// What a register of a type holds.
pub fn scalar_of(t: &IrType) -> Scalar
    ensures { result ≡ scalar_of t.now }
{
    match t {
        IrType::Int(w) => Scalar::Word(*w),
        _ => Scalar::Pointer,
    }
}

/// The word of a type's width that is equal to a number modulo two to the width.
pub fn word_of(t: &IrType, number: i128) -> u32
    ensures { result ≡ word_of (modulus (width_of t.now)) number }
{
    number.rem_euclid(words(width_of(t))) as u32
}

/// The number of a field.
pub fn field_number(operand: FlatOp) -> u32
    ensures { result ≡ field_number operand }
{
    match operand {
        FlatOp::Word(number) => number,
        _ => 0,
    }
}

/// The zero or the null of a type.
fn zero_of(t: &IrType) -> FlatOp
    ensures { result ≡ zero_of (scalar_of t.now) }
{
    match scalar_of(t) {
        Scalar::Word(_) => FlatOp::Word(0),
        Scalar::Pointer => FlatOp::Null,
    }
}

impl<'a> Locals<'a> {
    pub fn typed(&self, a: &TypedOperand) -> FlatOp
        requires measured { IsMeasuredValue self.now.source.types.defs a.now.value }
        ensures { result ≡ typed_in self.now a.now }
    {
        self.operand(&a.ty, &a.value)
    }

    /// An operand of a type: a register or a constant.
    #[tactic(auto, using(crate::proofs::SameOperands::constant_same))]
    pub fn operand(&self, t: &IrType, value: &Operand) -> FlatOp
        requires measured { IsMeasuredValue self.now.source.types.defs value.now }
        ensures { result ≡ value_in self.now t.now value.now }
    {
        match value {
            Operand::Local(name) => FlatOp::Reg(self.register(*name)),
            Operand::Const(c) => self.constant(t, c),
        }
    }

    fn constant(&self, t: &IrType, c: &Const) -> FlatOp
        requires measured { IsMeasuredConst self.now.source.types.defs c.now }
        ensures { result ≡ constant self.now.source t.now c.now }
    {
        match c {
            Const::Int(number) => FlatOp::Word(word_of(t, *number)),
            Const::Bool(bit) => FlatOp::Word(*bit as u32),
            Const::Null => FlatOp::Null,
            Const::Undef => zero_of(t),
            Const::Address(name) => FlatOp::Address(self.global(*name), 0),
            Const::Gep(source, name, indices) => FlatOp::Address(
                self.global(*name),
                const_bytes(self.source(), source, indices.as_slice()),
            ),
            _ => FlatOp::Poison,
        }
    }
}
