ghost use Rattle.std.specs.Prelude.{◌≡◌, ◌<◌, ◌≤◌, ◌+◌, ◌++◌, false, true, length, slice_index_or, replicate, IfOk, OnOk};
ghost use Rattle.std.specs.List.{All};
ghost use Rattle.component_split.specs.Arcs.{edges_at, edges_of, AreArcsWithin};
ghost use Rattle.component_split.specs.Walk.{left, IsWalk};

use crate::arcs::Arc;
use oi_base::{Items, NoMemory};
use std::alloc::Global;
use strong_components::Edge;

/// A depth-first walk along arcs that gives each site a direction. What it comes to directs all its sites away from itself, but
/// the one by which the walk came. So a site of the walk's tree leads down it, and every other one leads up.
#[derive(Drop)]
pub struct Walk {
    pub seen: Vec<bool>,
    pub forth: Vec<bool>,
    pub next: Vec<Arc>,
}

/// A direction for each site: whether it leads from the caller to the callee. Where the set is connected, a site is on a
/// cycle exactly where the directed sites lead back from its head to its tail.
pub fn orientation(alloc: Global, arcs: &[Items<Arc>], sites: usize) -> Result<Vec<bool>, NoMemory>
    requires { AreArcsWithin (length arcs.now) sites arcs.now }
    ensures { IfOk result (λ forth. length forth.items ≡ sites) }
{
    let mut walk = Walk::start(alloc, arcs.len(), sites)?;
    if !arcs.is_empty() {
        walk.visit(arcs, 0, None)?;
        walk.run(arcs)?;
    }
    Ok(walk.forth)
}

impl Walk {
    /// A walk that has come to nothing.
    fn start(alloc: Global, funcs: usize, sites: usize) -> Result<Walk, NoMemory>
        ensures walk { IfOk result (λ w. IsWalk funcs sites w) }
        ensures unseen { IfOk result (λ w. 0 < funcs → slice_index_or w.seen.items 0 true ≡ false) }
    {
        Ok(Walk {
            seen: none_of(alloc, funcs)?,
            forth: none_of(alloc, sites)?,
            next: Vec::new(alloc),
        })
    }

    /// Comes to a function for the first time, by one of its sites or by none.
    fn visit(&mut self, arcs: &[Items<Arc>], at: usize, by: Option<usize>) -> Result<(), NoMemory>
        requires walk { IsWalk (length arcs.now) (length self.old.forth.items) self.old }
        requires arcs { AreArcsWithin (length arcs.now) (length self.old.forth.items) arcs.now }
        requires within { at < length arcs.now }
        requires unseen { slice_index_or self.old.seen.items at true ≡ false }
        ensures walk { OnOk result (IsWalk (length arcs.now) (length self.old.forth.items) self.new) }
        ensures fewer { OnOk result (left arcs.now self.new.seen.items + length self.new.next.items ≤ left arcs.now self.old.seen.items + length self.old.next.items) }
    {
        self.seen[at] = true;
        for arc in arcs[at].as_slice() {
            if by != Some(arc.site) {
                self.forth[arc.site] = arc.forth;
                self.next.push(*arc)?;
            }
        }
        Ok(())
    }

    /// Comes to all to which arcs lead.
    fn run(&mut self, arcs: &[Items<Arc>]) -> Result<(), NoMemory>
        requires walk { IsWalk (length arcs.now) (length self.old.forth.items) self.old }
        requires arcs { AreArcsWithin (length arcs.now) (length self.old.forth.items) arcs.now }
        ensures { OnOk result (IsWalk (length arcs.now) (length self.old.forth.items) self.new) }
    {
        while let Some(arc) = self.next.pop() {
            if !self.seen[arc.to] {
                self.visit(arcs, arc.to, Some(arc.site))?;
            }
        }
        Ok(())
    }
}

fn none_of(alloc: Global, count: usize) -> Result<Vec<bool>, NoMemory>
    ensures { IfOk result (λ none. none.items ≡ replicate count false) }
{
    let mut none = Vec::new(alloc);
    none.resize(count, false)?;
    Ok(none)
}

/// The arcs in whose direction their site leads, as edges among the positions of a set's functions.
pub fn edges_of(alloc: Global, arcs: &[Items<Arc>], forth: &[bool]) -> Result<Vec<Edge>, NoMemory>
    requires { AreArcsWithin (length arcs.now) (length forth.now) arcs.now }
    ensures { IfOk result (λ edges. edges.items ≡ edges_of forth.now arcs.now (length arcs.now)) }
{
    let mut edges = Vec::new(alloc);
    for from in 0..arcs.len() {
        push_edges(from, arcs[from].as_slice(), forth, &mut edges)?;
    }
    Ok(edges)
}

fn push_edges(
    from: usize,
    arcs: &[Arc],
    forth: &[bool],
    edges: &mut Vec<Edge>,
) -> Result<(), NoMemory>
    requires { All (λ a. a.site < length forth.now) arcs.now }
    ensures { OnOk result (edges.new.items ≡ edges.old.items ++ edges_at forth.now from arcs.now) }
{
    for arc in arcs {
        if forth[arc.site] == arc.forth {
            edges.push(Edge { from, to: arc.to })?;
        }
    }
    Ok(())
}
