ghost use Rattle.std.specs.Prelude.{◌≡◌, ◌<◌, ℕ, List, length, Some, None, OnOk, IfOk, MatchOption, slice_get};
ghost use Rattle.ir_assigned.specs.declared.search.Step as step;
ghost use Rattle.ir_assigned.specs.Search.{state, entered, IsOffered, AreMarks, IsClean, AreSteps, Inv, Onward, Spreads, IsOver, IsAlong};
ghost use Rattle.ir_assigned.specs.BlockPaths.{IsRoute, IsPathTo};
ghost use Rattle.ir_core.specs.ValidPaths.{IsSuccessor};

use crate::fault::BlockPath;
use crate::graph::Graph;
use oi_base::{Items, NoMemory};
use std::alloc::{AllocError, Global};

/// The number of a search, from 1, and the block to go around, if any.
#[derive(Clone, Copy)]
pub struct Aim {
    pub round: usize,
    pub around: Option<usize>,
}

/// A block to which the search came, and the number of the step that comes after it on the path.
#[derive(Clone, Copy)]
pub struct Step {
    pub block: usize,
    pub after: usize,
}

/// A search for a path from the entry to a block, from that block backwards. A mark is the number of the last search that
/// came to a block; searches of one number go on where earlier ones found no path.
#[derive(Drop)]
pub struct Search {
    marks: Vec<usize>,
    queue: Vec<Step>,
}

impl Search {
    /// A search that came to none of `count` blocks.
    pub fn start(alloc: Global, count: usize) -> Result<Search, NoMemory>
        ensures { IfOk result (λ s. AreMarks count 0 (state s)) }
    {
        let mut marks = Vec::new(alloc);
        marks.resize(count, 0)?;
        Ok(Search {
            marks,
            queue: Vec::new(alloc),
        })
    }

    fn enter(&mut self, round: usize, block: usize, after: usize) -> Result<(), AllocError>
        requires { block < length self.old.marks.items }
        ensures { OnOk result (state self.new ≡ entered round block after (state self.old)) }
    {
        self.queue.push(Step { block, after })?;
        self.marks[block] = round;
        Ok(())
    }

    /// Comes to a block, if it isn't the one to go around and the search didn't come to it.
    fn offer(&mut self, aim: Aim, block: usize, after: usize) -> Result<(), AllocError>
        requires { block < length self.old.marks.items }
        ensures { OnOk result (IsOffered aim block after (state self.old) (state self.new)) }
    {
        if aim.around == Some(block) || self.marks[block] == aim.round {
            return Ok(());
        }
        self.enter(aim.round, block, after)
    }

    /// Comes to the blocks before that of step `at`.
    fn spread(
        &mut self,
        graph: &Graph<'_>,
        aim: Aim,
        at: usize,
        before: &[usize],
    ) -> Result<(), AllocError>
        requires round { 0 < aim.round }
        requires inv { Inv graph.now aim at (state self.old) }
        requires before { (k u : ℕ) (e : step.Step) → slice_get before.now k ≡ Some u → slice_get self.old.queue.items at ≡ Some e → IsSuccessor graph.now u e.block }
        requires step { at < length self.old.queue.items }
        ensures { OnOk result (Spreads graph.now aim at before.now (state self.old) (state self.new)) }
    {
        for block in before {
            self.offer(aim, *block, at)?;
        }
        Ok(())
    }

    /// Comes to blocks until one is the entry, or there are no more; the number of the entry's step.
    fn gather(&mut self, graph: &Graph<'_>, aim: Aim) -> Result<Option<usize>, AllocError>
        requires round { 0 < aim.round }
        requires inv { Inv graph.now aim 0 (state self.old) }
        ensures over { IfOk result (λ at. IsOver graph.now aim at (state self.new)) }
        ensures marks { OnOk result (AreMarks (length graph.now.blocks) aim.round (state self.new)) }
        ensures onward { OnOk result (Onward graph.now aim (state self.old) (state self.new)) }
    {
        let mut at = 0;
        while at < self.queue.len() {
            let block = self.queue[at].block;
            if block == 0 {
                return Ok(Some(at));
            }
            self.spread(graph, aim, at, graph.before(block))?;
            at += 1;
        }
        Ok(None)
    }

    /// The blocks along the steps, from step `at` to the first.
    fn path(
        &self,
        alloc: Global,
        graph: &Graph<'_>,
        aim: Aim,
        at: usize,
    ) -> Result<BlockPath, AllocError>
        requires steps { AreSteps graph.now aim self.now.queue.items }
        requires within { at < length self.now.queue.items }
        ensures { IfOk result (λ path. IsAlong graph.now aim self.now.queue.items at path) }
    {
        let mut path = Vec::new(alloc);
        let mut from = at;
        while from > 0 {
            path.push(self.queue[from].block)?;
            from = self.queue[from].after;
        }
        path.push(self.queue[0].block)?;
        Ok(Items::from_vec(path))
    }

    /// A path from the entry to a block.
    pub fn path_from_entry(
        &mut self,
        alloc: Global,
        graph: &Graph<'_>,
        aim: Aim,
        block: usize,
    ) -> Result<Option<BlockPath>, AllocError>
        requires round { 0 < aim.round }
        requires marks { AreMarks (length graph.now.blocks) aim.round (state self.old) }
        requires clean { IsClean graph.now aim (state self.old) }
        requires within { block < length graph.now.blocks }
        ensures marks { OnOk result (AreMarks (length graph.now.blocks) aim.round (state self.new)) }
        ensures none { IfOk result (λ route. route ≡ None → IsClean graph.now aim (state self.new)) }
        ensures exact { IfOk result (λ route. MatchOption route ((before : List ℕ) → IsRoute graph.now aim.around block 0 before → ⊥) (IsPathTo graph.now aim.around block)) }
    {
        if self.marks[block] == aim.round {
            return Ok(None);
        }
        self.queue.clear();
        self.enter(aim.round, block, 0)?;
        match self.gather(graph, aim)? {
            Some(at) => Ok(Some(self.path(alloc, graph, aim, at)?)),
            None => Ok(None),
        }
    }
}
