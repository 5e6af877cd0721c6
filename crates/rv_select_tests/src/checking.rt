ghost use Rattle.std.specs.Prelude.{IsTrue, All};
ghost use Rattle.rv_select_tests.specs.Plain.{IsPlain, IsPlainBlock, IsPlainEnd, IsPlainInstr, IsTarget};

use ir_core::{FlatBlock, FlatBody, FlatEnd, FlatInstr, FlatOp};
use oi_base::BlockId;

fn is_plain_instr(i: &FlatInstr) -> bool
    ensures { IsTrue result → IsPlainInstr i.now }
{
    match i {
        FlatInstr::Put(None, FlatOp::Word(w)) => *w < 256,
        _ => false,
    }
}

fn are_plain_instrs(code: &[FlatInstr]) -> bool
    ensures { IsTrue result → All IsPlainInstr code.now }
{
    for i in code {
        if !is_plain_instr(i) {
            return false;
        }
    }
    true
}

fn is_target(count: usize, to: BlockId) -> bool
    ensures { IsTrue result → IsTarget count to.0 }
{
    0 < to.0 && (to.0 as usize) < count
}

fn is_plain_end(count: usize, end: &FlatEnd) -> bool
    ensures { IsTrue result → IsPlainEnd count end.now }
{
    match end {
        FlatEnd::Ret(Some(FlatOp::Word(w))) => *w < 256,
        FlatEnd::Br(to) => is_target(count, *to),
        FlatEnd::Cond(FlatOp::Word(c), yes, no) => {
            *c < 2 && is_target(count, *yes) && is_target(count, *no)
        }
        FlatEnd::Unreachable => true,
        _ => false,
    }
}

fn is_plain_block(count: usize, block: &FlatBlock) -> bool
    ensures { IsTrue result → IsPlainBlock count block.now }
{
    block.phis.as_slice().len() == 0
        && are_plain_instrs(block.code.as_slice())
        && is_plain_end(count, &block.end)
}

fn are_plain_blocks(count: usize, blocks: &[FlatBlock]) -> bool
    ensures { IsTrue result → All (IsPlainBlock count) blocks.now }
{
    for block in blocks {
        if !is_plain_block(count, block) {
            return false;
        }
    }
    true
}

/// A body is plain.
pub fn is_plain(b: &FlatBody) -> bool
    ensures { IsTrue result → IsPlain b.now }
{
    let count = b.blocks.as_slice().len();
    b.params == 0
        && b.regs == 0
        && 0 < count
        && count < 0x1_0000_0000
        && are_plain_blocks(count, b.blocks.as_slice())
}
