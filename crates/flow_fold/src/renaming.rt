ghost use Rattle.std.specs.Prelude.{◌≡◌, ◌<◌, ◌≤◌, ◌^◌, ℕ, Contains, IfOk, OnOk, length, map};
ghost use Rattle.flow_fold.specs.declared.merger.Merge as merge;
ghost use Rattle.flow_fold.specs.Blocks.{block_named, entry_renamed, phi_renamed};
ghost use Rattle.flow_fold.specs.MergeBlocks.{renamed_in};
ghost use Rattle.flow_fold.specs.Merges.{names, name_in};

use crate::merger::Merge;
use const_fold::reversed;
use ir_core::{Entries, Entry, FlatBlock, FlatBlocks, Phi, Phis};
use oi_base::{BlockId, Items};
use std::alloc::{AllocError, Global};

/// Each block under its own name.
fn own_names(alloc: Global, size: usize) -> Result<Vec<u32>, AllocError>
    requires few { size < 2 ^ 32 }
    ensures long { IfOk result (λ ns. length ns.items ≡ size) }
    ensures names { IfOk result (λ ns. (b : ℕ) → name_in ns.items b ≡ b) }
{
    let mut names = Vec::new(alloc);
    for b in 0..size {
        names.push(b as u32)?;
    }
    Ok(names)
}

/// The name of a block.
fn name(names: &[u32], b: BlockId) -> BlockId
    ensures { result ≡ block_named (name_in names.now) b }
{
    match names.get(b.0 as usize) {
        Some(name) => BlockId(*name),
        None => b,
    }
}

/// The names that so many blocks have after some merges: the last merge first, the block that was merged away gets the name of
/// that into which it was merged.
pub fn names(alloc: Global, size: usize, merges: Items<Merge>) -> Result<Vec<u32>, AllocError>
    requires few { size < 2 ^ 32 }
    requires within { (x : merge.Merge) → Contains merges x → x.from.0 < size }
    ensures { IfOk result (λ ns. (b : ℕ) → name_in ns.items b ≡ names merges b) }
{
    let mut names = own_names(alloc, size)?;
    let mut left = merges;
    while let Some(merge) = left.pop() {
        let into = name(names.as_slice(), merge.into);
        names[merge.from.0 as usize] = into.0;
    }
    Ok(names)
}

fn renamed_entries(alloc: Global, names: &[u32], entries: &[Entry]) -> Result<Entries, AllocError>
    ensures { IfOk result (λ es. es ≡ map (entry_renamed (name_in names.now)) entries.now) }
{
    let mut new = Entries::new(alloc);
    for entry in entries {
        new.push(Entry {
            from: name(names, entry.from),
            value: entry.value,
        })?;
    }
    Ok(new)
}

fn rename_phis(alloc: Global, names: &[u32], phis: &mut Phis) -> Result<(), AllocError>
    ensures { OnOk result (phis.new ≡ map (phi_renamed (name_in names.now)) phis.old) }
{
    for at in 0..phis.len() {
        if let Some(phi) = phis.get(at) {
            let reg = phi.reg;
            let entries = renamed_entries(alloc, names, phi.entries.as_slice())?;
            phis.set(at, Phi { reg, entries });
        }
    }
    Ok(())
}

fn renamed_block(alloc: Global, names: &[u32], block: FlatBlock) -> Result<FlatBlock, AllocError>
    ensures { IfOk result (λ new. new ≡ renamed_in (name_in names.now) block) }
{
    let FlatBlock {
        mut phis,
        code,
        end,
    } = block;
    rename_phis(alloc, names, &mut phis)?;
    Ok(FlatBlock { phis, code, end })
}

/// Blocks with other names in their phis.
pub fn renamed_blocks(
    alloc: Global,
    names: &[u32],
    blocks: FlatBlocks,
) -> Result<FlatBlocks, AllocError>
    ensures { IfOk result (λ new. new ≡ map (renamed_in (name_in names.now)) blocks) }
{
    let mut left = reversed(alloc, blocks)?;
    let mut new = FlatBlocks::new(alloc);
    while let Some(block) = left.pop() {
        new.push(renamed_block(alloc, names, block)?)?;
    }
    Ok(new)
}
