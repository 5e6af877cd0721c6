use crate::constant::{Const, TypedCount};
use crate::flat::{BinOp, CastOp, Cmp};
use crate::module::SymId;
use crate::short::Short;
use crate::ty::IrType;
use oi_base::Items;
use std::default::Default;

/// A parameter, a register or a label of a function: its position in the function's list of local names.
#[derive(Clone, Copy, Debug, PartialEq, Eq)]
pub struct LocalId(pub u32);

/// A value: a parameter or register, or a constant.
#[derive(Drop)]
pub enum Operand {
    Local(LocalId),
    Const(Const),
}

/// A value with its type.
#[derive(Drop)]
pub struct TypedOperand {
    pub ty: IrType,
    pub value: Operand,
}

impl Default for TypedOperand {
    fn default() -> TypedOperand {
        TypedOperand {
            ty: IrType::Void,
            value: Operand::Const(Const::Poison),
        }
    }
}

/// The arguments of a call or the indices of a `getelementptr`.
pub type TypedOperands = Short<TypedOperand, 2>;

/// An entry of a phi: its value where control comes from a block.
#[derive(Drop)]
pub struct Pair {
    pub value: Operand,
    pub from: LocalId,
}

impl Default for Pair {
    fn default() -> Pair {
        Pair {
            value: Operand::Const(Const::Poison),
            from: LocalId(0),
        }
    }
}

pub type Pairs = Short<Pair, 2>;

/// An instruction without its result (LangRef, "Instruction Reference"). The operands stand in the order in
/// which they are written, and an `Option<u32>` is the `align`.
#[derive(Drop)]
pub enum Op {
    Bin(BinOp, IrType, Operand, Operand),
    Icmp(Cmp, IrType, Operand, Operand),
    Select(TypedOperand, TypedOperand, TypedOperand),
    Cast(CastOp, TypedOperand, IrType),
    Alloca(IrType, Option<TypedCount>, Option<u32>),
    Load(IrType, TypedOperand, Option<u32>),
    Store(TypedOperand, TypedOperand, Option<u32>),
    Gep(IrType, TypedOperand, TypedOperands),
    Phi(IrType, Pairs),
    Call(IrType, SymId, TypedOperands),
}

/// A case of a `switch`: its constant and its block.
#[derive(Drop)]
pub struct SwitchCase {
    pub value: TypedOperand,
    pub to: LocalId,
}

pub type SwitchCases = Items<SwitchCase>;

/// A terminator (LangRef, "Terminator Instructions"). `Cond` has its condition, then the block where it is
/// true; `Switch` its value, then the default.
#[derive(Drop)]
pub enum End {
    Ret(Option<TypedOperand>),
    Br(LocalId),
    Cond(TypedOperand, LocalId, LocalId),
    Switch(TypedOperand, LocalId, SwitchCases),
    Unreachable,
}
