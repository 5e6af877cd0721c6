ghost use Rattle.std.specs.Prelude.{◌≡◌, ◌≢◌, ◌<◌, ◌^◌, ◌++◌, ◌∷◌, [], ℕ, nat_eq, false, IfOk, OnOk, length, map, slice_get, slice_set, slice_index_or, Some};
ghost use Rattle.std.specs.Option.{option_map};
ghost use Rattle.ir_core.specs.declared.flat.FlatBlock as flat;
ghost use Rattle.flow_fold.specs.MergeBlocks.{Merging, first_value, as_copy, joined, empty_block, merged_once, merged_behind, merged_through};
ghost use Rattle.flow_fold.specs.Merges.{next_merge, IsSound, Shows};

use ir_core::{FlatBlock, FlatCode, FlatEnd, FlatInstr, FlatOp, Phi, Phis};
use oi_base::{BlockId, Items};
use std::alloc::{AllocError, Global};
use std::mem;

/// One block that was merged into another.
#[derive(Clone, Copy, Debug, PartialEq, Eq)]
pub struct Merge {
    pub into: BlockId,
    pub from: BlockId,
}

/// Blocks while they are merged. Phis name blocks as they were at the beginning, `merges` has the merges in their order, and
/// `counts` how many edges lead to each block.
#[derive(Drop)]
pub struct Merger {
    pub blocks: Vec<FlatBlock>,
    pub left: Items<bool>,
    pub counts: Items<u32>,
    pub merges: Items<Merge>,
}

fn empty_block(alloc: Global) -> FlatBlock
    ensures { result ≡ empty_block }
{
    FlatBlock {
        phis: Phis::new(alloc),
        code: FlatCode::new(alloc),
        end: FlatEnd::Unreachable,
    }
}

/// A phi of a block with one predecessor is a copy.
fn as_copy(phi: &Phi) -> FlatInstr
    ensures { result ≡ as_copy phi.now }
{
    let value = match phi.entries.as_slice() {
        [first, ..] => first.value,
        [] => FlatOp::Poison,
    };
    FlatInstr::Copy(phi.reg, value)
}

fn push_copies(code: &mut FlatCode, phis: &[Phi]) -> Result<(), AllocError>
    ensures { OnOk result (code.new ≡ code.old ++ map as_copy phis.now) }
{
    for phi in phis {
        code.push(as_copy(phi))?;
    }
    Ok(())
}

/// A block with another after it.
fn joined(first: FlatBlock, second: FlatBlock) -> Result<FlatBlock, AllocError>
    ensures { IfOk result (λ k. k ≡ joined first second) }
{
    let FlatBlock {
        phis,
        mut code,
        end: _,
    } = first;
    let FlatBlock {
        phis: more,
        code: rest,
        end,
    } = second;
    push_copies(&mut code, more.as_slice())?;
    code.append(rest)?;
    Ok(FlatBlock { phis, code, end })
}

/// Joins one block with another, in whose place an empty one stands from now on.
#[tactic(auto, using(crate::proofs::OneMerge::join_so))]
fn join_at(alloc: Global, blocks: &mut Vec<FlatBlock>, n: usize, m: usize) -> Result<(), AllocError>
    requires n_within { n < length blocks.old.items }
    requires m_within { m < length blocks.old.items }
    requires apart { m ≢ n }
    ensures { OnOk result ((k l : flat.FlatBlock) → slice_get blocks.old.items n ≡ Some k → slice_get blocks.old.items m ≡ Some l → blocks.new.items ≡ slice_set (slice_set blocks.old.items n (joined k l)) m empty_block) }
{
    let second = mem::replace(&mut blocks[m], empty_block(alloc));
    let first = mem::replace(&mut blocks[n], empty_block(alloc));
    blocks[n] = joined(first, second)?;
    Ok(())
}

/// The block that is merged next into block n.
pub fn next_merge(n: BlockId, counts: &[u32], block: &FlatBlock) -> Option<BlockId>
    ensures { option_map (λ m. m.0) result ≡ next_merge n.0 counts.now block.now }
{
    match &block.end {
        FlatEnd::Br(m) => {
            if m.0 != 0 && m.0 != n.0 && is_one(counts, *m) {
                Some(*m)
            } else {
                None
            }
        }
        _ => None,
    }
}

/// Whether one edge leads to a block.
fn is_one(counts: &[u32], m: BlockId) -> bool
    ensures { result ≡ nat_eq (slice_index_or counts.now m.0 0) 1 }
{
    match counts.get(m.0 as usize) {
        Some(count) => *count == 1,
        None => false,
    }
}

impl Merger {
    /// Merges one block into block n, if there is one to be merged, and answers whether there was.
    fn merge_once(&mut self, alloc: Global, n: BlockId) -> Result<bool, AllocError>
        requires sound { IsSound (length self.old.blocks.items) self.old }
        requires within { n.0 < length self.old.blocks.items }
        ensures sound { OnOk result (IsSound (length self.old.blocks.items) self.new) }
        ensures shows { OnOk result ((s : Merging) → Shows s self.old → Shows (merged_once n.0 s) self.new) }
        ensures fixed { IfOk result (λ more. more ≡ false → (s : Merging) → Shows s self.old → merged_once n.0 s ≡ s) }
    {
        let at = n.0 as usize;
        match next_merge(n, self.counts.as_slice(), &self.blocks[at]) {
            Some(m) => {
                self.merge(alloc, n, m)?;
                Ok(true)
            }
            None => Ok(false),
        }
    }

    /// Merges block m into block n.
    fn merge(&mut self, alloc: Global, n: BlockId, m: BlockId) -> Result<(), AllocError>
        requires sound { IsSound (length self.old.blocks.items) self.old }
        requires n_within { n.0 < length self.old.blocks.items }
        requires m_within { m.0 < length self.old.blocks.items }
        requires apart { m.0 ≢ n.0 }
        ensures blocks { OnOk result ((k l : flat.FlatBlock) → slice_get self.old.blocks.items n.0 ≡ Some k → slice_get self.old.blocks.items m.0 ≡ Some l → self.new.blocks.items ≡ slice_set (slice_set self.old.blocks.items n.0 (joined k l)) m.0 empty_block) }
        ensures left { OnOk result (self.new.left ≡ slice_set self.old.left m.0 false) }
        ensures counts { OnOk result (self.new.counts ≡ slice_set self.old.counts m.0 0) }
        ensures merges { OnOk result (self.new.merges ≡ self.old.merges ++ (record { into = n; from = m }) ∷ []) }
    {
        let from = m.0 as usize;
        join_at(alloc, &mut self.blocks, n.0 as usize, from)?;
        self.merges.push(Merge { into: n, from: m })?;
        self.left.set(from, false);
        self.counts.set(from, 0);
        Ok(())
    }

    /// Merges blocks into block n as long as there are any.
    fn merge_behind(&mut self, alloc: Global, n: BlockId) -> Result<(), AllocError>
        requires sound { IsSound (length self.old.blocks.items) self.old }
        requires within { n.0 < length self.old.blocks.items }
        ensures sound { OnOk result (IsSound (length self.old.blocks.items) self.new) }
        ensures shows { OnOk result ((s : Merging) → Shows s self.old → Shows (merged_behind s n.0) self.new) }
    {
        for _turn in 0..self.blocks.len() {
            if !self.merge_once(alloc, n)? {
                return Ok(());
            }
        }
        Ok(())
    }

    /// Merges blocks into each block, in their order.
    pub fn merge_all(&mut self, alloc: Global) -> Result<(), AllocError>
        requires sound { IsSound (length self.old.blocks.items) self.old }
        requires few { length self.old.blocks.items < 2 ^ 32 }
        ensures sound { OnOk result (IsSound (length self.old.blocks.items) self.new) }
        ensures shows { OnOk result ((s : Merging) → Shows s self.old → Shows (merged_through (length self.old.blocks.items) s) self.new) }
    {
        for n in 0..self.blocks.len() {
            self.merge_behind(alloc, BlockId(n as u32))?;
        }
        Ok(())
    }
}
