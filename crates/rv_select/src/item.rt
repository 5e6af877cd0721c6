use oi_base::{BlockId, FuncId};
use rv_isa::{Rv, X};

/// Four bytes of a code: an instruction, or one of a pair that waits for an address. `CallHigh` and `CallLow` are the
/// `auipc` and the `jalr` of a call; `AddressHigh` and `AddressLow` are the `lui` and the `addi` that put the address
/// of a global, counted from 0 in text order, plus so many bytes into a register.
#[derive(Clone, Copy, Debug, PartialEq, Eq)]
pub enum Item {
    Word(Rv),
    CallHigh(FuncId),
    CallLow(FuncId),
    AddressHigh(X, u32, u32),
    AddressLow(X, u32, u32),
}

/// The test of two registers at which a branch is taken.
#[derive(Clone, Copy, Debug, PartialEq, Eq)]
pub enum Test {
    Equal,
    NotEqual,
}

/// A part of a code in which blocks have no places yet: an item as it is, a `jal` to a block's head, or a branch to one,
/// which is one instruction where the block is near.
#[derive(Clone, Copy, Debug, PartialEq, Eq)]
pub enum Draft {
    Fixed(Item),
    Jump(BlockId),
    Near(Test, X, X, BlockId),
}
