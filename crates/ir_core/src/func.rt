use crate::module::{SymId, Texts};
use crate::op::{End, LocalId, Op};
use crate::ty::IrType;
use oi_base::{Items, Place};

/// An instruction at the place of its first token, with the register that holds its result.
#[derive(Drop)]
pub struct Instr {
    pub place: Place,
    pub result: Option<LocalId>,
    pub op: Op,
}

pub type Instrs = Items<Instr>;

/// A basic block at its label's place, or without a label at that of its first token.
#[derive(Drop)]
pub struct Block {
    pub place: Place,
    pub label: LocalId,
    pub code: Instrs,
    pub end: End,
    pub end_place: Place,
}

pub type Blocks = Items<Block>;

/// A parameter.
#[derive(Drop)]
pub struct Param {
    pub ty: IrType,
    pub name: LocalId,
}

pub type Params = Items<Param>;

/// A function's definition. `internal` is true of the linkages `internal` and `private`. `locals` are the names
/// of parameters, registers and blocks in order of first appearance.
#[derive(Drop)]
pub struct Func {
    pub place: Place,
    pub name: SymId,
    pub internal: bool,
    pub noinline: bool,
    pub result: IrType,
    pub params: Params,
    pub locals: Texts,
    pub blocks: Blocks,
}

pub type Funcs = Items<Func>;
