use crate::short::Short;
use oi_base::{BlockId, FuncId, Items, RegId, Width};
use std::default::Default;

/// A binary operation (LangRef, "Binary Operations" and "Bitwise Binary Operations").
#[derive(Clone, Copy, Debug, PartialEq, Eq)]
pub enum BinOp {
    Add,
    Sub,
    Mul,
    Udiv,
    Sdiv,
    Urem,
    Srem,
    Shl,
    Lshr,
    Ashr,
    And,
    Or,
    Xor,
}

/// A condition of `icmp` (LangRef, "icmp Instruction").
#[derive(Clone, Copy, Debug, PartialEq, Eq)]
pub enum Cmp {
    Eq,
    Ne,
    Ugt,
    Uge,
    Ult,
    Ule,
    Sgt,
    Sge,
    Slt,
    Sle,
}

/// A conversion between integers (LangRef, "Conversion Operations").
#[derive(Clone, Copy, Debug, PartialEq, Eq)]
pub enum CastOp {
    Zext,
    Sext,
    Trunc,
}

/// What a register holds: a word of a width, or a pointer.
#[derive(Clone, Copy, Debug, PartialEq, Eq)]
pub enum Scalar {
    Word(Width),
    Pointer,
}

/// An operand of a flat body. `Address(g, k)` is the address of the global `g`, counted from 0 in text order,
/// plus `k` bytes.
#[derive(Clone, Copy, Debug, PartialEq, Eq)]
pub enum FlatOp {
    Reg(RegId),
    Word(u32),
    Null,
    Address(u32, u32),
    Poison,
}

impl Default for FlatOp {
    fn default() -> FlatOp {
        FlatOp::Poison
    }
}

/// A term of an address: an operand of a width, sign-extended, times a stride in bytes.
#[derive(Clone, Copy, Debug, PartialEq, Eq)]
pub struct Term {
    pub operand: FlatOp,
    pub width: Width,
    pub stride: u32,
}

pub type Terms = Items<Term>;

/// The arguments of a call.
pub type Args = Short<FlatOp, 4>;

/// An instruction of a flat body; a register that comes first is the one that it writes.
#[derive(Drop)]
pub enum FlatInstr {
    Bin(RegId, BinOp, Width, FlatOp, FlatOp),
    Icmp(RegId, Cmp, Scalar, FlatOp, FlatOp),
    /// The condition, the value where it is true, and the value where it is false.
    Select(RegId, FlatOp, FlatOp, FlatOp),
    /// From the first width to the second.
    Cast(RegId, CastOp, Width, Width, FlatOp),
    Copy(RegId, FlatOp),
    /// A size and an alignment in bytes.
    Alloca(RegId, u32, u32),
    /// What is loaded, the promised alignment and the address.
    Load(RegId, Scalar, u32, FlatOp),
    /// What is stored, the promised alignment, the value and the address.
    Store(Scalar, u32, FlatOp, FlatOp),
    /// The base, the constant part in bytes, and the terms.
    Gep(RegId, FlatOp, u32, Terms),
    Call(Option<RegId>, FuncId, Args),
    /// A call of `putchar`.
    Put(Option<RegId>, FlatOp),
    /// A call of `getchar`.
    Get(Option<RegId>),
    /// A call of `exit`.
    Exit(FlatOp),
}

pub type FlatCode = Items<FlatInstr>;

/// A case of a switch: its word and its block.
#[derive(Clone, Copy, Debug, PartialEq, Eq)]
pub struct Case {
    pub word: u32,
    pub to: BlockId,
}

pub type Cases = Items<Case>;

/// The end of a block.
#[derive(Drop)]
pub enum FlatEnd {
    Ret(Option<FlatOp>),
    Br(BlockId),
    /// The condition, the block where it is true, and the block where it is false.
    Cond(FlatOp, BlockId, BlockId),
    /// The value, its width, the cases and the default.
    Switch(FlatOp, Width, Cases, BlockId),
    Unreachable,
}

/// An entry of a phi: its value where control comes from a block.
#[derive(Clone, Copy, Debug, PartialEq, Eq)]
pub struct Entry {
    pub from: BlockId,
    pub value: FlatOp,
}

impl Default for Entry {
    fn default() -> Entry {
        Entry {
            from: BlockId(0),
            value: FlatOp::Poison,
        }
    }
}

pub type Entries = Short<Entry, 2>;

/// A phi: the register that it writes, and its entries.
#[derive(Drop)]
pub struct Phi {
    pub reg: RegId,
    pub entries: Entries,
}

pub type Phis = Items<Phi>;

/// A basic block of a flat body.
#[derive(Drop)]
pub struct FlatBlock {
    pub phis: Phis,
    pub code: FlatCode,
    pub end: FlatEnd,
}

pub type FlatBlocks = Items<FlatBlock>;

/// A function's body over numbered registers. The first `params` of the `regs` registers are the parameters,
/// and block 0 is the entry.
#[derive(Drop)]
pub struct FlatBody {
    pub params: u32,
    pub regs: u32,
    pub blocks: FlatBlocks,
}
