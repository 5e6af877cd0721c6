ghost use Rattle.std.specs.Prelude.{◌≡◌, IfOk, OnOk, false, map};
ghost use Rattle.const_fold.specs.FoldConstants.{entry_with, phi_with, instr_with, block_with, body_with, constants_folded};
ghost use Rattle.const_fold.specs.FactTables.{facts_in};

use crate::fact_table::FactTable;
use crate::order::reversed;
use crate::passed::Passed;
use crate::rewrite::{end_with, instr_with};
use crate::shortening::any_shortens;
use crate::sweep::all_facts;
use ir_core::{Entries, Entry, FlatBlock, FlatBlocks, FlatBody, FlatCode, Phi, Phis};
use oi_base::NoMemory;
use std::alloc::{AllocError, Global};

/// Entries with what is known in their values' places.
fn known_entries(alloc: Global, facts: &FactTable, entries: &[Entry]) -> Result<Entries, AllocError>
    ensures { IfOk result (λ es. es ≡ map (entry_with (facts_in facts.now)) entries.now) }
{
    let mut new = Entries::new(alloc);
    for entry in entries {
        new.push(Entry {
            from: entry.from,
            value: facts.known(entry.value),
        })?;
    }
    Ok(new)
}

/// Replaces what is known in the values of phis.
fn fold_phis(alloc: Global, facts: &FactTable, phis: &mut Phis) -> Result<(), AllocError>
    ensures { OnOk result (phis.new ≡ map (phi_with (facts_in facts.now)) phis.old) }
{
    for at in 0..phis.len() {
        if let Some(phi) = phis.get(at) {
            let reg = phi.reg;
            let entries = known_entries(alloc, facts, phi.entries.as_slice())?;
            phis.set(at, Phi { reg, entries });
        }
    }
    Ok(())
}

/// Replaces what is known in the operands of instructions, and shortens them.
fn fold_code(alloc: Global, facts: &FactTable, code: &mut FlatCode) -> Result<(), AllocError>
    ensures { OnOk result (code.new ≡ map (instr_with (facts_in facts.now)) code.old) }
{
    for at in 0..code.len() {
        if let Some(instr) = code.get(at) {
            let new = instr_with(alloc, facts, instr)?;
            code.set(at, new);
        }
    }
    Ok(())
}

fn fold_block(alloc: Global, facts: &FactTable, block: FlatBlock) -> Result<FlatBlock, AllocError>
    ensures { IfOk result (λ new. new ≡ block_with (facts_in facts.now) block) }
{
    let FlatBlock {
        mut phis,
        mut code,
        end,
    } = block;
    fold_phis(alloc, facts, &mut phis)?;
    fold_code(alloc, facts, &mut code)?;
    let end = end_with(facts, end);
    Ok(FlatBlock { phis, code, end })
}

fn fold_blocks(
    alloc: Global,
    facts: &FactTable,
    blocks: FlatBlocks,
) -> Result<FlatBlocks, AllocError>
    ensures { IfOk result (λ new. new ≡ map (block_with (facts_in facts.now)) blocks) }
{
    let mut left = reversed(alloc, blocks)?;
    let mut new = FlatBlocks::new(alloc);
    while let Some(block) = left.pop() {
        new.push(fold_block(alloc, facts, block)?)?;
    }
    Ok(new)
}

/// A body with its constants folded by these facts.
fn folded(alloc: Global, facts: &FactTable, b: FlatBody) -> Result<FlatBody, NoMemory>
    ensures { IfOk result (λ new. new ≡ body_with (facts_in facts.now) b) }
{
    let FlatBody {
        params,
        regs,
        blocks,
    } = b;
    let blocks = fold_blocks(alloc, facts, blocks)?;
    Ok(FlatBody {
        params,
        regs,
        blocks,
    })
}

/// Folds constants as `fold_constants` does, and tells whether there was something to fold. Where no register has a fact and
/// no instruction has a shorter form, the body is only read.
#[tactic(auto, unfolding(crate::specs::FoldConstants::constants_folded))]
pub fn constants_pass(alloc: Global, b: FlatBody) -> Result<Passed, NoMemory>
    ensures body { IfOk result (λ p. p.body ≡ constants_folded b) }
    ensures same { IfOk result (λ p. p.changed ≡ false → p.body ≡ b) }
{
    let facts = all_facts(alloc, b.blocks.as_slice())?;
    if facts.is_empty() && !any_shortens(b.blocks.as_slice()) {
        return Ok(Passed {
            body: b,
            changed: false,
        });
    }
    Ok(Passed {
        body: folded(alloc, &facts, b)?,
        changed: true,
    })
}

/// Folds constants.
///
/// One sweep visits the instructions in body order, phis first in a block. A register has a fact, which is a constant (a
/// word, null, an address or poison), where its instruction's operands are constants or have earlier facts, and an operation,
/// a comparison or a conversion of words gives a word; or it is a copy; or a select whose condition is a word; or a phi whose
/// entries are all one constant; or an address of a global with words as terms. Then each operand with a fact is replaced, in
/// all the body. The terms of an address that are words are added to its constant part; an address that moves its base by
/// nothing, and a select on a word, become copies.
pub fn fold_constants(alloc: Global, b: FlatBody) -> Result<FlatBody, NoMemory>
    ensures { IfOk result (λ new. new ≡ constants_folded b) }
{
    let Passed { body, changed: _ } = constants_pass(alloc, b)?;
    Ok(body)
}
