use crate::module::SymId;
use crate::ty::IrType;
use oi_base::{Items, Text};

/// A constant (LangRef, "Constants"). `Zero` is `zeroinitializer`, `Bytes` a string of bytes, `Address` the
/// address of a global, and `Gep` a constant `getelementptr` on one: the source type, the global and the indices.
#[cycle(constants)]
#[derive(Drop)]
pub enum Const {
    Int(i128),
    Bool(bool),
    Null,
    Undef,
    Poison,
    Zero,
    Bytes(Text),
    Address(SymId),
    Gep(IrType, SymId, Indices),
    Array(TypedConsts),
    Struct(TypedConsts),
}

/// A constant with its type.
#[cycle(constants)]
#[derive(Drop)]
pub struct TypedConst {
    pub ty: IrType,
    pub value: Const,
}

pub type TypedConsts = Items<TypedConst>;

/// A number with its type: an index of a constant `getelementptr`, or the count of an `alloca`.
#[derive(Drop)]
pub struct TypedCount {
    pub ty: IrType,
    pub count: i128,
}

pub type Indices = Items<TypedCount>;
