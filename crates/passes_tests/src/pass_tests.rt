use crate::sample::sample;
use flow_fold::{drop_unreached, fold_branches, merge_blocks};
use ir_core::{FlatBody, FlatInstr, FlatOp};
use local_passes::{drop_dead, local_copies};
use oi_base::RegId;
use std::test::Fail;

/// How many instructions the first block has.
fn length(body: &FlatBody) -> usize {
    match body.blocks.as_slice() {
        [block, ..] => block.code.len(),
        [] => 0,
    }
}

/// Whether an instruction of the first block is an operation on two operands.
fn is_operation(body: &FlatBody, at: usize, x: FlatOp, y: FlatOp) -> bool {
    match body.blocks.as_slice() {
        [block, ..] => match block.code.get(at) {
            Some(FlatInstr::Bin(_, _, _, a, b)) => *a == x && *b == y,
            _ => false,
        },
        [] => false,
    }
}

#[test]
fn a_copy_gives_way_to_what_it_is_a_copy_of(rt: HostRuntime) -> Result<(), Fail> {
    let alloc = rt.alloc();
    let new = local_copies(alloc, sample(alloc)?)?;
    let parameter = FlatOp::Reg(RegId(0));
    assert!(rt; length(&new) == 3);
    assert!(rt; is_operation(&new, 1, parameter, parameter));
    Ok(())
}

#[test]
fn what_nothing_uses_is_dropped(rt: HostRuntime) -> Result<(), Fail> {
    let alloc = rt.alloc();
    let new = drop_dead(alloc, sample(alloc)?)?;
    let copy = FlatOp::Reg(RegId(1));
    assert!(rt; length(&new) == 2);
    assert!(rt; is_operation(&new, 1, copy, copy));
    Ok(())
}

#[test]
fn one_block_has_no_branches(rt: HostRuntime) -> Result<(), Fail> {
    let alloc = rt.alloc();
    assert!(rt; length(&fold_branches(alloc, sample(alloc)?)?) == 3);
    assert!(rt; length(&drop_unreached(alloc, sample(alloc)?)?) == 3);
    assert!(rt; length(&merge_blocks(alloc, sample(alloc)?)?) == 3);
    Ok(())
}
