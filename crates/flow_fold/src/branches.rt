ghost use Rattle.std.specs.Prelude.{◌≡◌, ◌<◌, ◌≤◌, ◌^◌, IfOk, false, length};
ghost use Rattle.std.specs.List.{list_any};
ghost use Rattle.ir_core.specs.WellFormed.{IsWellFormed};
ghost use Rattle.flow_fold.specs.Blocks.{by_number};
ghost use Rattle.flow_fold.specs.Changes.{changes, block_changed};
ghost use Rattle.flow_fold.specs.FoldBranches.{branches_folded};
ghost use Rattle.flow_fold.specs.Settled.{is_decided};

use crate::entries::drop_entries;
use crate::terminators::{change, decided};
use const_fold::{Passed, reversed};
use ir_core::{FlatBlock, FlatBlocks, FlatBody};
use oi_base::{BlockId, NoMemory};
use std::alloc::{AllocError, Global};

/// Of each block the one block to which it goes from now on, where its terminator is decided.
fn changes(alloc: Global, blocks: &[FlatBlock]) -> Result<Vec<Option<BlockId>>, AllocError>
    ensures { IfOk result (λ cs. cs.items ≡ changes blocks.now) }
{
    let mut all = Vec::new(alloc);
    for block in blocks {
        all.push(change(&block.end))?;
    }
    Ok(all)
}

fn decided_block(
    alloc: Global,
    changes: &[Option<BlockId>],
    b: BlockId,
    block: FlatBlock,
) -> Result<FlatBlock, AllocError>
    ensures { IfOk result (λ new. new ≡ block_changed changes.now b.0 block) }
{
    let FlatBlock {
        mut phis,
        code,
        end,
    } = block;
    drop_entries(alloc, changes, b, &mut phis)?;
    let end = decided(end);
    Ok(FlatBlock { phis, code, end })
}

fn decided_blocks(
    alloc: Global,
    changes: &[Option<BlockId>],
    blocks: FlatBlocks,
) -> Result<FlatBlocks, AllocError>
    requires few { length blocks < 2 ^ 32 }
    ensures { IfOk result (λ new. new ≡ by_number (block_changed changes.now) 0 blocks) }
{
    let mut left = reversed(alloc, blocks)?;
    let mut new = FlatBlocks::new(alloc);
    while let Some(block) = left.pop() {
        let b = BlockId(new.len() as u32);
        new.push(decided_block(alloc, changes, b, block)?)?;
    }
    Ok(new)
}

/// The body with its branches folded.
#[tactic(auto, using(crate::proofs::ByChanges::folded_so))]
fn folded(alloc: Global, b: FlatBody) -> Result<FlatBody, NoMemory>
    requires formed { IsWellFormed b }
    ensures { IfOk result (λ new. new ≡ branches_folded b) }
{
    let FlatBody {
        params,
        regs,
        blocks,
    } = b;
    let changes = changes(alloc, blocks.as_slice())?;
    let blocks = decided_blocks(alloc, changes.as_slice(), blocks)?;
    Ok(FlatBody {
        params,
        regs,
        blocks,
    })
}

/// Whether some terminator is decided.
fn any_decided(blocks: &[FlatBlock]) -> bool
    ensures { result ≡ list_any is_decided blocks.now }
{
    for block in blocks {
        if change(&block.end).is_some() {
            return true;
        }
    }
    false
}

/// Folds branches as `fold_branches` does, and tells whether there were some to fold. Where there were none, the body is only
/// read.
pub fn branches_pass(alloc: Global, b: FlatBody) -> Result<Passed, NoMemory>
    requires formed { IsWellFormed b }
    ensures body { IfOk result (λ p. p.body ≡ branches_folded b) }
    ensures same { IfOk result (λ p. p.changed ≡ false → p.body ≡ b) }
{
    if any_decided(b.blocks.as_slice()) {
        Ok(Passed {
            body: folded(alloc, b)?,
            changed: true,
        })
    } else {
        Ok(Passed {
            body: b,
            changed: false,
        })
    }
}

/// Folds branches.
///
/// A conditional branch on a word, or to two equal blocks, becomes a plain branch; a switch on a word becomes a branch to the
/// word's case or the default, and a switch without cases one to its default. Where the last edge from one block to another
/// goes, the entries of that block in the other's phis go too.
pub fn fold_branches(alloc: Global, b: FlatBody) -> Result<FlatBody, NoMemory>
    requires formed { IsWellFormed b }
    ensures { IfOk result (λ new. new ≡ branches_folded b) }
{
    let Passed { body, changed: _ } = branches_pass(alloc, b)?;
    Ok(body)
}
