use ir_core::{FlatBlock, FlatBlocks, FlatBody, FlatCode, FlatEnd, FlatInstr, FlatOp};
use oi_base::{BlockId, Items, NoMemory};
use std::alloc::Global;

/// A block that puts so many bytes.
pub fn push_block(
    alloc: Global,
    blocks: &mut FlatBlocks,
    puts: u32,
    end: FlatEnd,
) -> Result<(), NoMemory> {
    let mut code: FlatCode = Items::new(alloc);
    for _ in 0..puts {
        code.push(FlatInstr::Put(None, FlatOp::Word(65)))?;
    }
    let phis = Items::new(alloc);
    blocks.push(FlatBlock { phis, code, end })?;
    Ok(())
}

pub fn body_of(blocks: FlatBlocks) -> FlatBody {
    FlatBody {
        params: 0,
        regs: 0,
        blocks,
    }
}

/// A body that returns a byte.
pub fn returns(alloc: Global, byte: u32) -> Result<FlatBody, NoMemory> {
    let mut blocks = Items::new(alloc);
    push_block(
        alloc,
        &mut blocks,
        0,
        FlatEnd::Ret(Some(FlatOp::Word(byte))),
    )?;
    Ok(body_of(blocks))
}

/// A body whose first block branches past so many puts.
pub fn past_puts(alloc: Global, puts: u32) -> Result<FlatBody, NoMemory> {
    let mut blocks = Items::new(alloc);
    let branch = FlatEnd::Cond(FlatOp::Word(1), BlockId(2), BlockId(1));
    push_block(alloc, &mut blocks, 0, branch)?;
    push_block(alloc, &mut blocks, puts, FlatEnd::Unreachable)?;
    push_block(alloc, &mut blocks, 0, FlatEnd::Ret(Some(FlatOp::Word(0))))?;
    Ok(body_of(blocks))
}

/// A body of so many blocks that each branch past so many of those after them, or to the last.
pub fn chain(alloc: Global, count: u32, past: u32) -> Result<FlatBody, NoMemory> {
    let mut blocks = Items::new(alloc);
    for n in 0..count {
        let to = n.saturating_add(past).min(count.saturating_add(1));
        let next = n.saturating_add(1);
        let branch = FlatEnd::Cond(FlatOp::Word(1), BlockId(to), BlockId(next));
        push_block(alloc, &mut blocks, 0, branch)?;
    }
    push_block(alloc, &mut blocks, 341, FlatEnd::Unreachable)?;
    push_block(alloc, &mut blocks, 0, FlatEnd::Unreachable)?;
    Ok(body_of(blocks))
}
