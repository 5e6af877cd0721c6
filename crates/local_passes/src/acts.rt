ghost use Rattle.std.specs.Prelude.{◌≡◌, ◌++◌, OnOk};
ghost use Rattle.std.specs.List.{flat_map};
ghost use Rattle.ir_core.specs.Formed.{used_by, used_at_end};
ghost use Rattle.local_passes.specs.DropDead.{used_by_act, acts_in};
ghost use Rattle.local_passes.specs.NeedTables.{Marks};

use crate::needs::Needs;
use ir_core::{FlatBlock, FlatEnd, FlatInstr};
use std::alloc::AllocError;

fn mark_operands(needs: &mut Needs, i: &FlatInstr) -> Result<(), AllocError>
    ensures { OnOk result (Marks needs.old needs.new (used_by i.now)) }
{
    let mut at = 0;
    while let Some(o) = i.operand(at) {
        needs.mark(o)?;
        at += 1;
    }
    Ok(())
}

/// Marks what a store, a call, a put or an exit uses.
fn mark_act(needs: &mut Needs, i: &FlatInstr) -> Result<(), AllocError>
    ensures { OnOk result (Marks needs.old needs.new (used_by_act i.now)) }
{
    match i {
        FlatInstr::Store(_, _, _, _)
        | FlatInstr::Call(_, _, _)
        | FlatInstr::Put(_, _)
        | FlatInstr::Exit(_) => mark_operands(needs, i),
        _ => Ok(()),
    }
}

fn mark_code(needs: &mut Needs, code: &[FlatInstr]) -> Result<(), AllocError>
    ensures { OnOk result (Marks needs.old needs.new (flat_map used_by_act code.now)) }
{
    for instr in code {
        mark_act(needs, instr)?;
    }
    Ok(())
}

fn mark_end(needs: &mut Needs, end: &FlatEnd) -> Result<(), AllocError>
    ensures { OnOk result (Marks needs.old needs.new (used_at_end end.now)) }
{
    let mut at = 0;
    while let Some(o) = end.operand(at) {
        needs.mark(o)?;
        at += 1;
    }
    Ok(())
}

fn mark_block(needs: &mut Needs, block: &FlatBlock) -> Result<(), AllocError>
    ensures { OnOk result (Marks needs.old needs.new (acts_in block.now)) }
{
    mark_code(needs, block.code.as_slice())?;
    mark_end(needs, &block.end)?;
    Ok(())
}

/// Marks what is used in any case.
pub fn mark_acts(needs: &mut Needs, blocks: &[FlatBlock]) -> Result<(), AllocError>
    ensures { OnOk result (Marks needs.old needs.new (flat_map acts_in blocks.now)) }
{
    for block in blocks {
        mark_block(needs, block)?;
    }
    Ok(())
}
