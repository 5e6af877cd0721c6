ghost use Rattle.std.specs.Prelude.{length, OnOk, IfOk};
ghost use Rattle.ir_assigned.specs.Names.{AreLabels, AreDefinitions, PutsDefinitions, PutsResult};

use crate::table::put;
use ir_core::{Block, Func, Instr};
use oi_base::NoMemory;
use std::alloc::Global;

/// Where an instruction stands: the position of its block, and its own in the block.
#[derive(Clone, Copy)]
pub struct Spot {
    pub block: usize,
    pub at: usize,
}

/// The positions of the blocks by their labels.
pub fn labels(alloc: Global, func: &Func) -> Result<Vec<Option<usize>>, NoMemory>
    ensures { IfOk result (λ table. AreLabels func.now table.items) }
{
    let mut table = Vec::new(alloc);
    for (b, block) in func.blocks.as_slice().iter().enumerate() {
        put(&mut table, block.label, b)?;
    }
    Ok(table)
}

/// Where each register is written.
pub fn definitions(alloc: Global, func: &Func) -> Result<Vec<Option<Spot>>, NoMemory>
    ensures { IfOk result (λ table. AreDefinitions func.now table.items) }
{
    let mut table = Vec::new(alloc);
    for (b, block) in func.blocks.as_slice().iter().enumerate() {
        put_definitions(b, block, &mut table)?;
    }
    Ok(table)
}

/// Where each register that a block writes is written.
fn put_definitions(b: usize, block: &Block, table: &mut Vec<Option<Spot>>) -> Result<(), NoMemory>
    ensures { OnOk result (PutsDefinitions b block.now (length block.now.code) table.old.items table.new.items) }
{
    for (at, instr) in block.code.as_slice().iter().enumerate() {
        put_result(Spot { block: b, at }, instr, table)?;
    }
    Ok(())
}

fn put_result(spot: Spot, instr: &Instr, table: &mut Vec<Option<Spot>>) -> Result<(), NoMemory>
    ensures { OnOk result (PutsResult spot instr.now.result table.old.items table.new.items) }
{
    match instr.result {
        Some(local) => Ok(put(table, local, spot)?),
        None => Ok(()),
    }
}
