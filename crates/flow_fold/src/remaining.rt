ghost use Rattle.std.specs.Prelude.{◌≡◌, ◌<◌, ◌^◌, IfOk, OnOk, ◌++◌, [], ◌∷◌, length, map};
ghost use Rattle.std.specs.List.{filter};
ghost use Rattle.flow_fold.specs.Blocks.{kept_from, number_of, with_entries, entry_renamed, phi_renamed, left_in, only_blocks};
ghost use Rattle.flow_fold.specs.Walks.{marked_in};
ghost use Rattle.flow_fold.specs.Numbering.{IsNumbering, phi_left};

use crate::numbering::{number, numbers, renumbered};
use const_fold::reversed;
use ir_core::{Entries, Entry, FlatBlock, FlatBlocks, FlatBody, Phi, Phis};
use oi_base::BlockId;
use std::alloc::{AllocError, Global};

/// Whether a block is marked.
fn is_left(marks: &[bool], b: BlockId) -> bool
    ensures { result ≡ marked_in marks.now b.0 }
{
    match marks.get(b.0 as usize) {
        Some(mark) => *mark,
        None => false,
    }
}

/// The entries for blocks that are left, under their new numbers.
fn entries_left(
    alloc: Global,
    marks: &[bool],
    numbers: &[u32],
    entries: &[Entry],
) -> Result<Entries, AllocError>
    requires numbers { IsNumbering marks.now numbers.now }
    ensures { IfOk result (λ es. es ≡ map (entry_renamed (number_of (marked_in marks.now))) (filter (λ e. marked_in marks.now e.from.0) entries.now)) }
{
    let mut left = Entries::new(alloc);
    for entry in entries {
        if is_left(marks, entry.from) {
            left.push(Entry {
                from: number(marks, numbers, entry.from),
                value: entry.value,
            })?;
        }
    }
    Ok(left)
}

fn keep_entries(
    alloc: Global,
    marks: &[bool],
    numbers: &[u32],
    phis: &mut Phis,
) -> Result<(), AllocError>
    requires numbers { IsNumbering marks.now numbers.now }
    ensures { OnOk result (phis.new ≡ map (phi_left (marked_in marks.now)) phis.old) }
{
    for at in 0..phis.len() {
        if let Some(phi) = phis.get(at) {
            let reg = phi.reg;
            let entries = entries_left(alloc, marks, numbers, phi.entries.as_slice())?;
            phis.set(at, Phi { reg, entries });
        }
    }
    Ok(())
}

fn block_left(
    alloc: Global,
    marks: &[bool],
    numbers: &[u32],
    block: FlatBlock,
) -> Result<FlatBlock, AllocError>
    requires numbers { IsNumbering marks.now numbers.now }
    ensures { IfOk result (λ new. new ≡ left_in (marked_in marks.now) block) }
{
    let FlatBlock {
        mut phis,
        code,
        end,
    } = block;
    keep_entries(alloc, marks, numbers, &mut phis)?;
    let end = renumbered(alloc, marks, numbers, end)?;
    Ok(FlatBlock { phis, code, end })
}

fn blocks_left(
    alloc: Global,
    marks: &[bool],
    numbers: &[u32],
    blocks: FlatBlocks,
) -> Result<FlatBlocks, AllocError>
    requires numbers { IsNumbering marks.now numbers.now }
    requires few { length blocks < 2 ^ 32 }
    ensures { IfOk result (λ new. new ≡ map (left_in (marked_in marks.now)) (kept_from (marked_in marks.now) 0 blocks)) }
{
    let mut left = reversed(alloc, blocks)?;
    let mut new = FlatBlocks::new(alloc);
    let mut at: u32 = 0;
    while let Some(block) = left.pop() {
        push_if(alloc, marks, numbers, at, block, &mut new)?;
        at += 1;
    }
    Ok(new)
}

/// Adds a block to those that are left, if it is one.
fn push_if(
    alloc: Global,
    marks: &[bool],
    numbers: &[u32],
    at: u32,
    block: FlatBlock,
    new: &mut FlatBlocks,
) -> Result<(), AllocError>
    requires numbers { IsNumbering marks.now numbers.now }
    ensures { OnOk result (new.new ≡ new.old ++ map (left_in (marked_in marks.now)) (kept_from (marked_in marks.now) at (block ∷ []))) }
{
    if is_left(marks, BlockId(at)) {
        new.push(block_left(alloc, marks, numbers, block)?)?;
    }
    Ok(())
}

/// The marked blocks of a body, with the entries for them in phis, under new numbers.
pub fn only_blocks(alloc: Global, marks: &[bool], body: FlatBody) -> Result<FlatBody, AllocError>
    requires few { length body.blocks < 2 ^ 32 }
    requires marks { length marks.now ≡ length body.blocks }
    ensures { IfOk result (λ new. new ≡ only_blocks (marked_in marks.now) body) }
{
    let FlatBody {
        params,
        regs,
        blocks,
    } = body;
    let numbers = numbers(alloc, marks)?;
    let blocks = blocks_left(alloc, marks, numbers.as_slice(), blocks)?;
    Ok(FlatBody {
        params,
        regs,
        blocks,
    })
}
