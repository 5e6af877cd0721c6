ghost use Rattle.std.specs.Prelude.{◌≡◌, IfOk, OnOk, map};
ghost use Rattle.std.specs.List.{filter};
ghost use Rattle.flow_fold.specs.Blocks.{with_entries};
ghost use Rattle.flow_fold.specs.Changes.{entry_stays};

use ir_core::{Entries, Entry, Phi, Phis};
use oi_base::BlockId;
use std::alloc::{AllocError, Global};

/// Whether an entry of block b stays: its block is not decided, or is decided to go to b.
fn entry_stays(changes: &[Option<BlockId>], b: BlockId, entry: &Entry) -> bool
    ensures { result ≡ entry_stays changes.now b.0 entry.now }
{
    match changes.get(entry.from.0 as usize) {
        Some(Some(to)) => to.0 == b.0,
        _ => true,
    }
}

/// The entries of block b that stay.
fn entries_left(
    alloc: Global,
    changes: &[Option<BlockId>],
    b: BlockId,
    entries: &[Entry],
) -> Result<Entries, AllocError>
    ensures { IfOk result (λ es. es ≡ filter (entry_stays changes.now b.0) entries.now) }
{
    let mut left = Entries::new(alloc);
    for entry in entries {
        if entry_stays(changes, b, entry) {
            left.push(*entry)?;
        }
    }
    Ok(left)
}

/// Drops the entries of the phis of block b that do not stay.
pub fn drop_entries(
    alloc: Global,
    changes: &[Option<BlockId>],
    b: BlockId,
    phis: &mut Phis,
) -> Result<(), AllocError>
    ensures { OnOk result (phis.new ≡ map (with_entries (entry_stays changes.now b.0)) phis.old) }
{
    for at in 0..phis.len() {
        if let Some(phi) = phis.get(at) {
            let reg = phi.reg;
            let entries = entries_left(alloc, changes, b, phi.entries.as_slice())?;
            phis.set(at, Phi { reg, entries });
        }
    }
    Ok(())
}
