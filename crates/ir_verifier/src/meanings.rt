ghost use Rattle.std.specs.Prelude.{◌≡◌, List};
ghost use Rattle.ir_core.specs.declared.ty.TypeDef.{TypeDef};
ghost use Rattle.ir_core.specs.declared.constant.Const as consts;
ghost use Rattle.ir_core.specs.declared.op.Operand.TheVariants as operands;
ghost use Rattle.ir_core.specs.ValidConsts.{meaning};
ghost use Rattle.ir_verifier.specs.Forms.{meant};
ghost use Rattle.ir_verifier.specs.PhiFaults.{same_meaning, IsMeasured};

use crate::offsets::gep_offset;
use ir_core::{Const, IrType, LocalId, Module, Operand, SymId};
use module_rules::word_of;
use std::marker::Model;

/// What an operand says: a register or parameter, a word, null, a global's address and a number of bytes, poison, or
/// nothing of the type.
#[derive(Clone, Copy)]
pub enum Form {
    Local(LocalId),
    Word(u32),
    Null,
    Address(SymId, u32),
    Poison,
    Nothing,
}

/// What an operand means with a type. Two are equal where they are the same register, or constants that are the same word
/// of the type, null, the same address, or poison.
#[derive(Drop)]
pub struct Meaning {
    form: Form,
}

impl Model for Meaning {
    ghost use Rattle.ir_core.specs.ValidConsts as consts;

    ghost Value = { consts.Meaning };

    ghost use Rattle.ir_verifier.specs.Forms.{meant};

    ghost view = { λ v. meant v.form };
}

impl Meaning {
    /// What a value means with a type.
    pub fn of(m: &Module, t: &IrType, value: &Operand) -> Meaning
        requires measured { IsMeasured m.now.types.defs value.now }
        ensures { result ≡ meaning m.now.types.defs t.now value.now }
    {
        let form = match value {
            Operand::Local(name) => Form::Local(*name),
            Operand::Const(constant) => const_form(m, t, constant),
        };
        Meaning { form }
    }

    pub fn same(&self, other: &Meaning) -> bool
        ensures { result ≡ same_meaning self.now other.now }
    {
        match (self.form, other.form) {
            (Form::Local(x), Form::Local(y)) => x == y,
            (Form::Word(a), Form::Word(b)) => a == b,
            (Form::Null, Form::Null) => true,
            (Form::Address(g, a), Form::Address(h, b)) => g.0 == h.0 && a == b,
            (Form::Poison, Form::Poison) => true,
            (Form::Nothing, Form::Nothing) => true,
            _ => false,
        }
    }
}

fn const_form(m: &Module, t: &IrType, constant: &Const) -> Form
    requires measured { IsMeasured m.now.types.defs (operands.Const constant.now) }
    ensures { meant result ≡ meaning m.now.types.defs t.now (operands.Const constant.now) }
{
    match constant {
        Const::Int(number) => number_form(t, *number),
        Const::Bool(bit) => Form::Word(*bit as u32),
        Const::Undef => undef_form(t),
        Const::Null => Form::Null,
        Const::Poison => Form::Poison,
        Const::Address(global) => Form::Address(*global, 0),
        Const::Gep(source, global, indices) => {
            Form::Address(*global, gep_offset(m, source, indices.as_slice()))
        }
        _ => Form::Nothing,
    }
}

fn number_form(t: &IrType, number: i128) -> Form
    ensures { (defs : List TypeDef) → meant result ≡ meaning defs t.now (operands.Const (consts.Int number)) }
{
    match t {
        IrType::Int(w) => Form::Word(word_of(*w, number)),
        _ => Form::Nothing,
    }
}

/// The zero or the null of a type.
fn undef_form(t: &IrType) -> Form
    ensures { (defs : List TypeDef) → meant result ≡ meaning defs t.now (operands.Const consts.Undef) }
{
    match t {
        IrType::Int(_) => Form::Word(0),
        IrType::Ptr => Form::Null,
        _ => Form::Nothing,
    }
}
