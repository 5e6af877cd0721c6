ghost use Rattle.std.specs.Prelude.{◌≡◌, ◌<◌, ◌^◌, ℕ, Contains, IfOk, Some, None, length, nat_lt, replicate, slice_get, true, false};
ghost use Rattle.ir_core.specs.declared.flat.FlatBlock as flat;
ghost use Rattle.ir_core.specs.Formed.{targets};
ghost use Rattle.ir_core.specs.WellFormed.{IsWellFormed};
ghost use Rattle.flow_fold.specs.MergeBlocks.{Merging, blocks_merged};
ghost use Rattle.flow_fold.specs.Blocks.{only_blocks};
ghost use Rattle.flow_fold.specs.Merges.{next_merge, IsSound, Shows};

use crate::counts::edge_counts;
use crate::merger::{Merger, next_merge};
use crate::remaining::only_blocks;
use crate::renaming::{names, renamed_blocks};
use const_fold::{Passed, reversed};
use ir_core::{FlatBlock, FlatBlocks, FlatBody};
use oi_base::{BlockId, Items, NoMemory};
use std::alloc::{AllocError, Global};

fn into_vec(alloc: Global, blocks: FlatBlocks) -> Result<Vec<FlatBlock>, AllocError>
    ensures { IfOk result (λ cells. cells.items ≡ blocks) }
{
    let mut left = reversed(alloc, blocks)?;
    let mut cells = Vec::new(alloc);
    while let Some(block) = left.pop() {
        cells.push(block)?;
    }
    Ok(cells)
}

/// So many marks.
fn all_left(alloc: Global, blocks: usize) -> Result<Items<bool>, AllocError>
    ensures { IfOk result (λ marks. marks ≡ replicate blocks true) }
{
    Ok(Items::from_vec(vec![in alloc; true; blocks]?))
}

/// Blocks of which none is merged yet.
fn unmerged(alloc: Global, blocks: FlatBlocks) -> Result<Merger, NoMemory>
    requires within { (a t : ℕ) (k : flat.FlatBlock) → slice_get blocks a ≡ Some k → Contains (targets k.end) t → t < length blocks }
    ensures sound { IfOk result (λ c. IsSound (length blocks) c) }
    ensures shows { IfOk result (λ c. Shows (record { blocks = blocks; left = λ b. nat_lt b (length blocks) }) c) }
{
    let counts = edge_counts(alloc, blocks.as_slice())?;
    let left = all_left(alloc, blocks.len())?;
    let blocks = into_vec(alloc, blocks)?;
    Ok(Merger {
        blocks,
        left,
        counts,
        merges: Items::new(alloc),
    })
}

/// The blocks that are left, under their new numbers.
fn finished(alloc: Global, params: u32, regs: u32, merger: Merger) -> Result<FlatBody, NoMemory>
    requires sound { IsSound (length merger.blocks.items) merger }
    requires few { length merger.blocks.items < 2 ^ 32 }
    ensures { IfOk result (λ new. (s : Merging) → Shows s merger → new ≡ only_blocks s.left (record { params = params; regs = regs; blocks = s.blocks })) }
{
    let Merger {
        blocks,
        left,
        counts,
        merges,
    } = merger;
    drop(counts);
    let names = names(alloc, blocks.len(), merges)?;
    let blocks = renamed_blocks(alloc, names.as_slice(), Items::from_vec(blocks))?;
    let body = FlatBody {
        params,
        regs,
        blocks,
    };
    Ok(only_blocks(alloc, left.as_slice(), body)?)
}

/// The body with its blocks merged.
fn merged(alloc: Global, b: FlatBody) -> Result<FlatBody, NoMemory>
    requires formed { IsWellFormed b }
    ensures { IfOk result (λ new. new ≡ blocks_merged b) }
{
    let FlatBody {
        params,
        regs,
        blocks,
    } = b;
    let mut merger = unmerged(alloc, blocks)?;
    merger.merge_all(alloc)?;
    let new = finished(alloc, params, regs, merger)?;
    Ok(new)
}

/// Whether some block is to be merged into another, by how many edges lead to each.
fn any_merge(counts: &[u32], blocks: &[FlatBlock]) -> bool
    requires few { length blocks.now < 2 ^ 32 }
    ensures none { result ≡ false → (n : ℕ) (k : flat.FlatBlock) → slice_get blocks.now n ≡ Some k → next_merge n counts.now k ≡ None }
{
    for n in 0..blocks.len() {
        if next_merge(BlockId(n as u32), counts, &blocks[n]).is_some() {
            return true;
        }
    }
    false
}

/// Merges blocks as `merge_blocks` does, and tells whether there were some to merge. Where there were none, the body is only
/// read.
pub fn merging_pass(alloc: Global, b: FlatBody) -> Result<Passed, NoMemory>
    requires formed { IsWellFormed b }
    ensures body { IfOk result (λ p. p.body ≡ blocks_merged b) }
    ensures same { IfOk result (λ p. p.changed ≡ false → p.body ≡ b) }
{
    let counts = edge_counts(alloc, b.blocks.as_slice())?;
    if any_merge(counts.as_slice(), b.blocks.as_slice()) {
        Ok(Passed {
            body: merged(alloc, b)?,
            changed: true,
        })
    } else {
        Ok(Passed {
            body: b,
            changed: false,
        })
    }
}

/// Merges blocks.
///
/// For each block in body order, while it ends in a plain branch to another block that isn't the entry and of which it is the
/// only predecessor, that block is merged into it: its phis become copies in order, its code and terminator follow, and
/// entries of phis that named it name the merging block, which keeps its place. Blocks are numbered anew by position.
pub fn merge_blocks(alloc: Global, b: FlatBody) -> Result<FlatBody, NoMemory>
    requires formed { IsWellFormed b }
    ensures { IfOk result (λ new. new ≡ blocks_merged b) }
{
    let Passed { body, changed: _ } = merging_pass(alloc, b)?;
    Ok(body)
}
