ghost use Rattle.std.specs.Prelude.{◌≡◌, ◌<◌, ◌++◌, [], ◌∷◌, All, IfOk, OnOk, MatchOption, length, replicate, false};
ghost use Rattle.ir_core.specs.Formed.{targets};
ghost use Rattle.flow_fold.specs.Walks.{Marks};

use ir_core::FlatEnd;
use oi_base::{BlockId, Items};
use std::alloc::{AllocError, Global};

/// Blocks that are marked, and those of them whose terminators are still to be looked at.
#[derive(Drop)]
pub struct Walk {
    marks: Items<bool>,
    todo: Items<BlockId>,
}

impl Walk {
    /// With no block marked.
    pub fn new(alloc: Global, blocks: usize) -> Result<Walk, AllocError>
        ensures marks { IfOk result (λ w. w.marks ≡ replicate blocks false) }
        ensures todo { IfOk result (λ w. w.todo ≡ []) }
    {
        let marks = Items::from_vec(vec![in alloc; false; blocks]?);
        Ok(Walk {
            marks,
            todo: Items::new(alloc),
        })
    }

    /// The marks, by the blocks' numbers.
    pub fn into_marks(self) -> Items<bool>
        ensures { result ≡ self.marks }
    {
        let Walk { marks, todo } = self;
        drop(todo);
        marks
    }

    /// Takes a block that is to be looked at.
    pub fn take(&mut self) -> Option<BlockId>
        ensures marks { self.new.marks ≡ self.old.marks }
        ensures todo { MatchOption result ((self.old.todo ≡ []) × (self.new.todo ≡ [])) (λ b. self.old.todo ≡ self.new.todo ++ b ∷ []) }
    {
        self.todo.pop()
    }

    /// Marks a block, and notes that it is to be looked at, unless it is marked.
    pub fn mark(&mut self, b: BlockId) -> Result<(), AllocError>
        requires within { b.0 < length self.old.marks }
        ensures { OnOk result (Marks self.old self.new (b.0 ∷ [])) }
    {
        let at = b.0 as usize;
        if !self.marks.as_slice()[at] {
            self.todo.push(b)?;
            self.marks.set(at, true);
        }
        Ok(())
    }

    /// Marks the blocks to which a terminator goes.
    pub fn mark_targets(&mut self, end: &FlatEnd) -> Result<(), AllocError>
        requires within { All (λ t. t < length self.old.marks) (targets end.now) }
        ensures { OnOk result (Marks self.old self.new (targets end.now)) }
    {
        let mut at = 0;
        while let Some(b) = end.successor(at) {
            self.mark(b)?;
            at += 1;
        }
        Ok(())
    }
}
