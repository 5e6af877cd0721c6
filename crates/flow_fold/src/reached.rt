ghost use Rattle.std.specs.Prelude.{◌≡◌, IfOk, false, length};
ghost use Rattle.std.specs.List.{list_all};
ghost use Rattle.ir_core.specs.WellFormed.{IsWellFormed};
ghost use Rattle.flow_fold.specs.DropUnreached.{is_reached, unreached_dropped};
ghost use Rattle.flow_fold.specs.Walks.{marked_in};

use crate::remaining::only_blocks;
use crate::walk::Walk;
use const_fold::Passed;
use ir_core::FlatBody;
use oi_base::{BlockId, Items, NoMemory};
use std::alloc::{AllocError, Global};

/// Of each block whether a path leads to it from the entry.
fn reached(alloc: Global, body: &FlatBody) -> Result<Items<bool>, AllocError>
    requires formed { IsWellFormed body.now }
    ensures reached { IfOk result (λ marks. marked_in marks ≡ is_reached body.now) }
    ensures long { IfOk result (λ marks. length marks ≡ length body.now.blocks) }
{
    let blocks = body.blocks.as_slice();
    let mut walk = Walk::new(alloc, blocks.len())?;
    walk.mark(BlockId(0))?;
    while let Some(b) = walk.take() {
        walk.mark_targets(&blocks[b.0 as usize].end)?;
    }
    Ok(walk.into_marks())
}

/// Whether all blocks are marked.
fn are_all(marks: &[bool]) -> bool
    ensures { result ≡ list_all (λ mark. mark) marks.now }
{
    for mark in marks {
        if !*mark {
            return false;
        }
    }
    true
}

/// Drops blocks as `drop_unreached` does, and tells whether there were some to drop. Where there were none, the body is only
/// read.
pub fn unreached_pass(alloc: Global, b: FlatBody) -> Result<Passed, NoMemory>
    requires formed { IsWellFormed b }
    ensures body { IfOk result (λ p. p.body ≡ unreached_dropped b) }
    ensures same { IfOk result (λ p. p.changed ≡ false → p.body ≡ b) }
{
    let marks = reached(alloc, &b)?;
    if are_all(marks.as_slice()) {
        Ok(Passed {
            body: b,
            changed: false,
        })
    } else {
        Ok(Passed {
            body: only_blocks(alloc, marks.as_slice(), b)?,
            changed: true,
        })
    }
}

/// Drops the blocks to which no path leads from the entry, with their entries in phis. Blocks are numbered anew by position.
pub fn drop_unreached(alloc: Global, b: FlatBody) -> Result<FlatBody, NoMemory>
    requires formed { IsWellFormed b }
    ensures { IfOk result (λ new. new ≡ unreached_dropped b) }
{
    let Passed { body, changed: _ } = unreached_pass(alloc, b)?;
    Ok(body)
}
