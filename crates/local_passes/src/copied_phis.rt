ghost use Rattle.std.specs.Prelude.{◌≡◌, IfOk, OnOk, map};
ghost use Rattle.local_passes.specs.CopyTables.{ends_told, phis_copied, IsTimed};
ghost use Rattle.local_passes.specs.LocalCopies.{entry_copied, phi_copied};

use crate::copy_table::{CopyTable, Span};
use crate::sources::from_source;
use const_fold::reversed;
use ir_core::{Entries, Entry, FlatBlock, FlatBlocks, Phi, Phis};
use std::alloc::{AllocError, Global};

/// An entry with the source of its value at the end of its block.
fn entry_from_source(table: &CopyTable, spans: &[Span], entry: &Entry) -> Entry
    ensures { result ≡ entry_copied (ends_told table.now.definitions.items spans.now) entry.now }
{
    let from = entry.from;
    match spans.get(from.0 as usize) {
        Some(span) => Entry {
            from,
            value: from_source(table, *span, entry.value),
        },
        None => *entry,
    }
}

fn entries_from_source(
    alloc: Global,
    table: &CopyTable,
    spans: &[Span],
    entries: &[Entry],
) -> Result<Entries, AllocError>
    ensures { IfOk result (λ es. es ≡ map (entry_copied (ends_told table.now.definitions.items spans.now)) entries.now) }
{
    let mut new = Entries::new(alloc);
    for entry in entries {
        new.push(entry_from_source(table, spans, entry))?;
    }
    Ok(new)
}

fn copy_phis(
    alloc: Global,
    table: &CopyTable,
    spans: &[Span],
    phis: &mut Phis,
) -> Result<(), AllocError>
    ensures { OnOk result (phis.new ≡ map (phi_copied (ends_told table.now.definitions.items spans.now)) phis.old) }
{
    for at in 0..phis.len() {
        if let Some(phi) = phis.get(at) {
            let reg = phi.reg;
            let entries = entries_from_source(alloc, table, spans, phi.entries.as_slice())?;
            phis.set(at, Phi { reg, entries });
        }
    }
    Ok(())
}

fn block_with_phis(
    alloc: Global,
    table: &CopyTable,
    spans: &[Span],
    block: FlatBlock,
) -> Result<FlatBlock, AllocError>
    ensures { IfOk result (λ new. new ≡ phis_copied (ends_told table.now.definitions.items spans.now) block) }
{
    let FlatBlock {
        mut phis,
        code,
        end,
    } = block;
    copy_phis(alloc, table, spans, &mut phis)?;
    Ok(FlatBlock { phis, code, end })
}

fn replace_phis(
    alloc: Global,
    table: &CopyTable,
    spans: &[Span],
    blocks: FlatBlocks,
) -> Result<FlatBlocks, AllocError>
    ensures { IfOk result (λ new. new ≡ map (phis_copied (ends_told table.now.definitions.items spans.now)) blocks) }
{
    let mut left = reversed(alloc, blocks)?;
    let mut new = FlatBlocks::new(alloc);
    while let Some(block) = left.pop() {
        new.push(block_with_phis(alloc, table, spans, block)?)?;
    }
    Ok(new)
}

/// Blocks with sources in the places of their phis' values; without definitions nothing changes.
pub fn blocks_with_phis(
    alloc: Global,
    table: &CopyTable,
    spans: &[Span],
    blocks: FlatBlocks,
) -> Result<FlatBlocks, AllocError>
    requires timed { IsTimed table.now }
    ensures { IfOk result (λ new. new ≡ map (phis_copied (ends_told table.now.definitions.items spans.now)) blocks) }
{
    if table.time() == 0 {
        Ok(blocks)
    } else {
        replace_phis(alloc, table, spans, blocks)
    }
}
