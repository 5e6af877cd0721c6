ghost use Rattle.std.specs.Prelude.{◌≡◌, ◌+◌, ◌<◌, ℕ, All, Contains, IfOk, OnOk, Some, length, nat_eq, slice_get};
ghost use Rattle.ir_core.specs.declared.flat.FlatBlock as flat;
ghost use Rattle.ir_core.specs.Formed.{targets};
ghost use Rattle.flow_fold.specs.Blocks.{one_if};
ghost use Rattle.flow_fold.specs.Merges.{count, count_in, edge_count};

use ir_core::{FlatBlock, FlatEnd};
use oi_base::{BlockId, Items, NoMemory};
use std::alloc::Global;

fn add_one(counts: &mut Items<u32>, b: BlockId) -> Result<(), NoMemory>
    requires within { b.0 < length counts.old }
    ensures long { OnOk result (length counts.new ≡ length counts.old) }
    ensures counts { OnOk result ((t : ℕ) → count_in counts.new t ≡ count_in counts.old t + one_if (nat_eq b.0 t)) }
{
    let at = b.0 as usize;
    match counts.as_slice()[at].checked_add(1) {
        Some(count) => {
            counts.set(at, count);
            Ok(())
        }
        None => Err(NoMemory),
    }
}

/// Adds the edges of a terminator.
fn add_targets(counts: &mut Items<u32>, end: &FlatEnd) -> Result<(), NoMemory>
    requires within { All (λ t. t < length counts.old) (targets end.now) }
    ensures long { OnOk result (length counts.new ≡ length counts.old) }
    ensures counts { OnOk result ((t : ℕ) → count_in counts.new t ≡ count_in counts.old t + count t (targets end.now)) }
{
    let mut at = 0;
    while let Some(b) = end.successor(at) {
        add_one(counts, b)?;
        at += 1;
    }
    Ok(())
}

/// How many edges lead to each block. `NoMemory` where a number does not fit.
pub fn edge_counts(alloc: Global, blocks: &[FlatBlock]) -> Result<Items<u32>, NoMemory>
    requires within { (a t : ℕ) (k : flat.FlatBlock) → slice_get blocks.now a ≡ Some k → Contains (targets k.end) t → t < length blocks.now }
    ensures long { IfOk result (λ counts. length counts ≡ length blocks.now) }
    ensures counts { IfOk result (λ counts. (t : ℕ) → count_in counts t ≡ edge_count t blocks.now) }
{
    let mut counts = Items::from_vec(vec![in alloc; 0; blocks.len()]?);
    for at in 0..blocks.len() {
        add_targets(&mut counts, &blocks[at].end)?;
    }
    Ok(counts)
}
