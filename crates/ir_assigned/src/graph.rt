ghost use Rattle.std.specs.Prelude.{◌≡◌, ◌<◌, ℕ, [], ◌∷◌, ◌++◌, length, OnOk, IfOk, Some, slice_get, Contains};
ghost use Rattle.ir_assigned.specs.Names.{AreLabels, LabelsDiffer};
ghost use Rattle.ir_assigned.specs.Graph.{AreBefore, Joins, before_at};
ghost use Rattle.ir_core.specs.Parts.{targets};
ghost use Rattle.ir_core.specs.ValidPaths.{IsSuccessor};

use crate::table::get;
use ir_core::{End, Func, LocalId};
use oi_base::{Items, NoMemory};
use std::alloc::Global;
use std::marker::Model;

/// A function with the predecessors of each of its blocks. Contracts see it as the function.
#[derive(Drop)]
pub struct Graph<'a> {
    func: &'a Func,
    before: Vec<Items<usize>>,
}

impl<'a> Model for Graph<'a> {
    ghost use Rattle.ir_core.specs.declared.func.Func as functions;
    ghost use Rattle.ir_core.specs.contracts.func.Func as of_functions;
    ghost use Rattle.ir_assigned.specs.Graph.{AreBefore};

    ghost Value = { functions.Func };

    ghost coded = { of_functions.the_row.coded };

    ghost view = { λ g. g.func.now };

    ghost invariant = { λ g. AreBefore g.func.now g.before.items };
}

impl<'a> Graph<'a> {
    /// Its condition is that `labels` has the positions of the blocks by their labels, and of no two blocks the same one.
    pub fn of(
        alloc: Global,
        func: &'a Func,
        labels: &[Option<usize>],
    ) -> Result<Graph<'a>, NoMemory>
        requires labels { AreLabels func.now labels.now }
        requires apart { LabelsDiffer func.now }
        ensures { IfOk result (λ g. g ≡ func.now) }
    {
        let before = befores(alloc, func, labels)?;
        Ok(Graph { func, before })
    }

    pub fn func(&self) -> &'a Func
        ensures { result.now ≡ self.now }
    {
        self.func
    }

    /// The blocks that control leaves for a block.
    pub fn before(&self, block: usize) -> &[usize]
        requires { block < length self.now.blocks }
        ensures only { (k a : ℕ) → slice_get result.now k ≡ Some a → IsSuccessor self.now a block }
        ensures each { (a : ℕ) → IsSuccessor self.now a block → Contains result.now a }
    {
        self.before[block].as_slice()
    }
}

/// The blocks before each block.
fn befores(
    alloc: Global,
    func: &Func,
    labels: &[Option<usize>],
) -> Result<Vec<Items<usize>>, NoMemory>
    requires labels { AreLabels func.now labels.now }
    requires apart { LabelsDiffer func.now }
    ensures { IfOk result (λ before. AreBefore func.now before.items) }
{
    let mut before = nothing_before(alloc, func.blocks.len())?;
    for (a, block) in func.blocks.as_slice().iter().enumerate() {
        let targets = targets_of(alloc, &block.end)?;
        join_all(labels, a, targets.as_slice(), &mut before)?;
    }
    Ok(before)
}

/// An empty list for each of `count` blocks.
fn nothing_before(alloc: Global, count: usize) -> Result<Vec<Items<usize>>, NoMemory>
    ensures count { IfOk result (λ before. length before.items ≡ count) }
    ensures empty { IfOk result (λ before. (b : ℕ) → before_at before.items b ≡ []) }
{
    let mut before = Vec::new(alloc);
    for b in 0..count {
        before.push(Items::new(alloc))?;
    }
    Ok(before)
}

/// The labels to which control may go.
fn targets_of(alloc: Global, end: &End) -> Result<Vec<LocalId>, NoMemory>
    ensures { IfOk result (λ labels. labels.items ≡ targets end.now) }
{
    let mut labels = Vec::new(alloc);
    let mut at = 0;
    while let Some(label) = end.successor(at) {
        labels.push(label)?;
        at += 1;
    }
    Ok(labels)
}

/// Puts block `a` before each block that has one of the labels.
fn join_all(
    labels: &[Option<usize>],
    a: usize,
    targets: &[LocalId],
    before: &mut Vec<Items<usize>>,
) -> Result<(), NoMemory>
    ensures { OnOk result (Joins labels.now a targets.now before.old.items before.new.items) }
{
    for target in targets {
        join(labels, a, *target, before)?;
    }
    Ok(())
}

fn join(
    labels: &[Option<usize>],
    a: usize,
    target: LocalId,
    before: &mut Vec<Items<usize>>,
) -> Result<(), NoMemory>
    ensures { OnOk result (Joins labels.now a (target ∷ []) before.old.items before.new.items) }
{
    if let Some(b) = get(labels, target) {
        if b < before.len() {
            before[b].push(a)?;
        }
    }
    Ok(())
}
