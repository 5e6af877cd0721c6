ghost use Rattle.std.specs.Prelude.{◌≡◌, OnOk, IfOk};
ghost use Rattle.std.specs.List.{fold};
ghost use Rattle.const_fold.specs.FoldConstants.{phi_noted, instr_noted, block_noted, no_facts};
ghost use Rattle.const_fold.specs.FactTables.{facts_in};

use crate::entries::entries_fact;
use crate::fact_table::FactTable;
use crate::results::instr_fact;
use ir_core::{FlatBlock, FlatInstr, Phi};
use std::alloc::{AllocError, Global};

/// Notes the fact of an instruction's result, where there is one.
fn note_instr(facts: &mut FactTable, i: &FlatInstr) -> Result<(), AllocError>
    ensures { OnOk result (facts_in facts.new ≡ instr_noted (facts_in facts.old) i.now) }
{
    match (i.result(), instr_fact(facts, i)) {
        (Some(r), Some(c)) => facts.note(r, c),
        _ => Ok(()),
    }
}

/// Notes the facts of phis, in their order.
fn note_phis(facts: &mut FactTable, phis: &[Phi]) -> Result<(), AllocError>
    ensures { OnOk result (facts_in facts.new ≡ fold phi_noted (facts_in facts.old) phis.now) }
{
    for phi in phis {
        if let Some(c) = entries_fact(facts, phi.entries.as_slice()) {
            facts.note(phi.reg, c)?;
        }
    }
    Ok(())
}

/// Notes the facts of instructions, in their order.
fn note_code(facts: &mut FactTable, code: &[FlatInstr]) -> Result<(), AllocError>
    ensures { OnOk result (facts_in facts.new ≡ fold instr_noted (facts_in facts.old) code.now) }
{
    for instr in code {
        note_instr(facts, instr)?;
    }
    Ok(())
}

/// Notes the facts of a block: those of its phis, then those of its instructions.
fn note_block(facts: &mut FactTable, block: &FlatBlock) -> Result<(), AllocError>
    ensures { OnOk result (facts_in facts.new ≡ block_noted (facts_in facts.old) block.now) }
{
    note_phis(facts, block.phis.as_slice())?;
    note_code(facts, block.code.as_slice())
}

/// The facts that one sweep over blocks finds.
pub fn all_facts(alloc: Global, blocks: &[FlatBlock]) -> Result<FactTable, AllocError>
    ensures { IfOk result (λ facts. facts_in facts ≡ fold block_noted no_facts blocks.now) }
{
    let mut facts = FactTable::new(alloc);
    for block in blocks {
        note_block(&mut facts, block)?;
    }
    Ok(facts)
}
