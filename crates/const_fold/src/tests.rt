use crate::fold_constants;
use ir_core::{BinOp, FlatBlock, FlatBody, FlatCode, FlatEnd, FlatInstr, FlatOp, Phis, Terms};
use oi_base::{Items, RegId, Width};
use std::alloc::{AllocError, Global};
use std::test::Fail;

/// A body of one block that returns an operand.
fn body(
    alloc: Global,
    params: u32,
    regs: u32,
    code: FlatCode,
    a: FlatOp,
) -> Result<FlatBody, AllocError> {
    let block = FlatBlock {
        phis: Phis::new(alloc),
        code,
        end: FlatEnd::Ret(Some(a)),
    };
    let mut blocks = Items::new(alloc);
    blocks.push(block)?;
    Ok(FlatBody {
        params,
        regs,
        blocks,
    })
}

/// What the first block returns.
fn returned(body: &FlatBody) -> Option<FlatOp> {
    match body.blocks.as_slice() {
        [block, ..] => match &block.end {
            FlatEnd::Ret(a) => *a,
            _ => None,
        },
        [] => None,
    }
}

#[test]
fn facts_are_replaced_in_all_the_body(rt: HostRuntime) -> Result<(), Fail> {
    let alloc = rt.alloc();
    let mut code = FlatCode::new(alloc);
    let first = RegId(0);
    code.push(FlatInstr::Bin(
        first,
        BinOp::Mul,
        Width::W8,
        FlatOp::Word(200),
        FlatOp::Word(2),
    ))?;
    let folded = fold_constants(alloc, body(alloc, 0, 1, code, FlatOp::Reg(first))?)?;
    assert!(rt; returned(&folded) == Some(FlatOp::Word(144)));
    Ok(())
}

#[test]
fn an_address_without_terms_is_a_copy(rt: HostRuntime) -> Result<(), Fail> {
    let alloc = rt.alloc();
    let mut code = FlatCode::new(alloc);
    code.push(FlatInstr::Gep(RegId(1), FlatOp::Reg(RegId(0)), 0, Terms::new(alloc)))?;
    let folded = fold_constants(alloc, body(alloc, 1, 2, code, FlatOp::Reg(RegId(1)))?)?;
    let is_copy = match folded.blocks.as_slice() {
        [block, ..] => matches!(
            block.code.as_slice(),
            [FlatInstr::Copy(RegId(1), FlatOp::Reg(RegId(0)))]
        ),
        [] => false,
    };
    assert!(rt; is_copy);
    Ok(())
}
