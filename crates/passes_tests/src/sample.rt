ghost use Rattle.std.specs.Prelude.{◌≡◌, IfOk};
ghost use Rattle.passes_tests.specs.Sample.{sample};

use ir_core::{BinOp, FlatBlock, FlatBlocks, FlatBody, FlatCode, FlatEnd, FlatInstr, FlatOp, Phis};
use oi_base::{NoMemory, RegId, Width};
use std::alloc::Global;

/// A body of one block: a copy of its parameter, twice the copy, and three times the parameter, which nothing uses.
pub fn sample(alloc: Global) -> Result<FlatBody, NoMemory>
    ensures { IfOk result (λ b. b ≡ sample) }
{
    let copy = FlatOp::Reg(RegId(1));
    let mut code = FlatCode::new(alloc);
    code.push(FlatInstr::Copy(RegId(1), FlatOp::Reg(RegId(0))))?;
    code.push(FlatInstr::Bin(RegId(2), BinOp::Add, Width::W32, copy, copy))?;
    code.push(FlatInstr::Bin(
        RegId(3),
        BinOp::Mul,
        Width::W32,
        FlatOp::Reg(RegId(0)),
        FlatOp::Word(3),
    ))?;
    let block = FlatBlock {
        phis: Phis::new(alloc),
        code,
        end: FlatEnd::Ret(Some(FlatOp::Reg(RegId(2)))),
    };
    let mut blocks = FlatBlocks::new(alloc);
    blocks.push(block)?;
    Ok(FlatBody {
        params: 1,
        regs: 4,
        blocks,
    })
}
