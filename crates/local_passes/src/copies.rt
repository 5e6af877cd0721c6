ghost use Rattle.std.specs.Prelude.{◌≡◌, ◌≢◌, ◌++◌, ◌∷◌, [], ℕ, List, IfOk, OnOk, AllPairs, false, length, map};
ghost use Rattle.std.specs.List.{flat_map, list_any};
ghost use Rattle.ir_core.specs.declared.flat.FlatBlock as flat;
ghost use Rattle.ir_core.specs.WellFormed.{IsWellFormed};
ghost use Rattle.local_passes.specs.CopyTables.{sources_in, IsTimed, Extends, IsSwept, block_swept, code_writes, copies_register, block_copies};
ghost use Rattle.local_passes.specs.LocalCopies.{source, code_copied, end_sources, copies_replaced};

use crate::copied_phis::blocks_with_phis;
use crate::copy_table::{CopyTable, Span};
use crate::sources::{end_from_source, instr_from_source};
use const_fold::{Passed, reversed};
use ir_core::{FlatBlock, FlatBlocks, FlatBody, FlatCode, FlatInstr, FlatOp};
use oi_base::NoMemory;
use std::alloc::Global;

/// Puts sources in the places of copies in the code of a block, and notes what it defines.
fn replace_copies(alloc: Global, table: &mut CopyTable, code: &mut FlatCode) -> Result<(), NoMemory>
    requires timed { IsTimed table.old }
    ensures timed { OnOk result (IsTimed table.new) }
    ensures extends { OnOk result (Extends table.old table.new code.old) }
    ensures code { OnOk result (code.new ≡ code_copied code.old) }
    ensures sources { OnOk result (sources_in table.new table.old.time ≡ source code.old (length code.old)) }
{
    let start = table.time();
    for at in 0..code.len() {
        if let Some(instr) = code.get(at) {
            let end = table.time();
            let new = instr_from_source(alloc, table, Span { start, end }, instr)?;
            table.note(start, instr)?;
            code.set(at, new);
        }
    }
    Ok(())
}

/// Whether some instruction is a copy of a register.
fn has_copies(code: &[FlatInstr]) -> bool
    ensures { result ≡ list_any copies_register code.now }
{
    for instr in code {
        if matches!(instr, FlatInstr::Copy(_, FlatOp::Reg(_))) {
            return true;
        }
    }
    false
}

/// The same; where there are no copies nothing changes, and what the code defines need not be noted.
fn sweep_code(alloc: Global, table: &mut CopyTable, code: &mut FlatCode) -> Result<(), NoMemory>
    requires timed { IsTimed table.old }
    ensures timed { OnOk result (IsTimed table.new) }
    ensures extends { OnOk result (Extends table.old table.new code.old) }
    ensures code { OnOk result (code.new ≡ code_copied code.old) }
    ensures sources { OnOk result (sources_in table.new table.old.time ≡ source code.old (length code.old)) }
{
    if has_copies(code.as_slice()) {
        replace_copies(alloc, table, code)
    } else {
        Ok(())
    }
}

fn sweep_block(
    alloc: Global,
    table: &mut CopyTable,
    block: FlatBlock,
) -> Result<FlatBlock, NoMemory>
    requires timed { IsTimed table.old }
    ensures timed { OnOk result (IsTimed table.new) }
    ensures extends { OnOk result (Extends table.old table.new block.code) }
    ensures block { IfOk result (λ new. new ≡ block_swept block) }
    ensures sources { OnOk result (sources_in table.new table.old.time ≡ end_sources block) }
{
    let FlatBlock {
        phis,
        mut code,
        end,
    } = block;
    let start = table.time();
    sweep_code(alloc, table, &mut code)?;
    let span = Span {
        start,
        end: table.time(),
    };
    let end = end_from_source(table, span, end);
    Ok(FlatBlock { phis, code, end })
}

/// Blocks that were swept, their spans, and the definitions in them.
#[derive(Drop)]
pub struct Sweep {
    pub blocks: FlatBlocks,
    pub spans: Vec<Span>,
    pub table: CopyTable,
}

impl Sweep {
    fn new(alloc: Global) -> Sweep
        ensures swept { IsSwept [] result }
        ensures timed { IsTimed result.table }
    {
        Sweep {
            blocks: FlatBlocks::new(alloc),
            spans: Vec::new(alloc),
            table: CopyTable::new(alloc),
        }
    }

    /// Sweeps one block more.
    fn add(&mut self, alloc: Global, block: FlatBlock) -> Result<(), NoMemory>
        requires timed { IsTimed self.old.table }
        ensures timed { OnOk result (IsTimed self.new.table) }
        ensures swept { OnOk result ((done : List flat.FlatBlock) → IsSwept done self.old → AllPairs (λ r s. r ≢ s) (flat_map code_writes (done ++ block ∷ [])) → IsSwept (done ++ block ∷ []) self.new) }
    {
        let start = self.table.time();
        let new = sweep_block(alloc, &mut self.table, block)?;
        let end = self.table.time();
        self.blocks.push(new)?;
        self.spans.push(Span { start, end })?;
        Ok(())
    }
}

fn sweep_blocks(alloc: Global, blocks: FlatBlocks) -> Result<Sweep, NoMemory>
    requires once { AllPairs (λ r s. r ≢ s) (flat_map code_writes blocks) }
    ensures swept { IfOk result (λ s. IsSwept blocks s) }
    ensures timed { IfOk result (λ s. IsTimed s.table) }
{
    let mut left = reversed(alloc, blocks)?;
    let mut sweep = Sweep::new(alloc);
    while let Some(block) = left.pop() {
        sweep.add(alloc, block)?;
    }
    Ok(sweep)
}

/// The body with sources in the places of copies.
fn replaced(alloc: Global, b: FlatBody) -> Result<FlatBody, NoMemory>
    requires formed { IsWellFormed b }
    ensures { IfOk result (λ new. new ≡ copies_replaced b) }
{
    let FlatBody {
        params,
        regs,
        blocks,
    } = b;
    let Sweep {
        blocks,
        spans,
        table,
    } = sweep_blocks(alloc, blocks)?;
    let blocks = blocks_with_phis(alloc, &table, spans.as_slice(), blocks)?;
    Ok(FlatBody {
        params,
        regs,
        blocks,
    })
}

/// Whether some instruction of some block is a copy of a register.
fn any_copies(blocks: &[FlatBlock]) -> bool
    ensures { result ≡ list_any block_copies blocks.now }
{
    for block in blocks {
        if has_copies(block.code.as_slice()) {
            return true;
        }
    }
    false
}

/// Replaces local copies as `local_copies` does, and tells whether there is a copy of a register. Where there is none, the body
/// is only read.
pub fn copies_pass(alloc: Global, b: FlatBody) -> Result<Passed, NoMemory>
    requires formed { IsWellFormed b }
    ensures body { IfOk result (λ p. p.body ≡ copies_replaced b) }
    ensures same { IfOk result (λ p. p.changed ≡ false → p.body ≡ b) }
{
    if any_copies(b.blocks.as_slice()) {
        Ok(Passed {
            body: replaced(alloc, b)?,
            changed: true,
        })
    } else {
        Ok(Passed {
            body: b,
            changed: false,
        })
    }
}

/// Replaces local copies.
///
/// At each place of a block a register that is a copy of another there is replaced by that one. It is one from the copy on,
/// until it or the other is defined again; a copy of a copy is a copy of the first; before a block no register is a copy.
/// The values of phis are used at the ends of their entries' blocks.
pub fn local_copies(alloc: Global, b: FlatBody) -> Result<FlatBody, NoMemory>
    requires formed { IsWellFormed b }
    ensures { IfOk result (λ new. new ≡ copies_replaced b) }
{
    let Passed { body, changed: _ } = copies_pass(alloc, b)?;
    Ok(body)
}
