ghost use Rattle.std.specs.Prelude.{◌≡◌, ◌<◌, ◌≤◌, ℕ, List, true, length, slice_index, IfOk};
ghost use Rattle.std.specs.List.{filter};
ghost use Rattle.component_split.specs.Graph.{has, inside};
ghost use Rattle.component_split.specs.Over.{func_numbers, site_numbers, site_graph, reached_from, IsRising, IsSetOf};

use crate::places::{is_among, is_inside};
use call_graph::CallGraph;
use oi_base::{FuncId, NoMemory, SiteId};
use std::alloc::Global;
use std::marker::Model;

/// A set of reached functions. It keeps the candidate sites inside it, so that what is asked of a set takes time in
/// proportion to its functions and sites. Contracts see it as the numbers of both, ascending.
#[derive(Drop)]
pub struct FuncSet {
    pub(crate) funcs: Vec<FuncId>,
    pub(crate) sites: Vec<SiteId>,
}

impl Model for FuncSet {
    ghost use Rattle.std.specs.Prelude.{ℕ, List};
    ghost use Rattle.component_split.specs.Over.{func_numbers, site_numbers, IsRising};

    ghost Value = { List ℕ × List ℕ };

    ghost view = { λ s. (func_numbers s.funcs.items, site_numbers s.sites.items) };

    ghost invariant = { λ s. IsRising (func_numbers s.funcs.items) };
}

impl FuncSet {
    /// All reached functions.
    pub fn all(alloc: Global, g: &CallGraph) -> Result<FuncSet, NoMemory>
        ensures funcs { IfOk result (λ s. s.0 ≡ reached_from 0 g.now.funcs) }
        ensures set { IfOk result (λ s. IsSetOf g.now s) }
    {
        let funcs = reached(alloc, g)?;
        let sites = sites_inside(alloc, g, funcs.as_slice())?;
        Ok(FuncSet { funcs, sites })
    }

    /// Whether the function is in the set.
    pub fn has(&self, f: FuncId) -> bool
        ensures { result ≡ has self.now.0 f.0 }
    {
        is_among(self.funcs.as_slice(), f)
    }

    /// The lowest function. Its condition is that the set isn't empty.
    pub fn lowest(&self) -> FuncId
        requires { 0 < length self.now.0 }
        ensures { result.0 ≡ slice_index self.now.0 0 }
    {
        self.funcs[0]
    }

    /// The same set once more.
    pub(crate) fn copy(&self, alloc: Global) -> Result<FuncSet, NoMemory>
        ensures { IfOk result (λ s. s ≡ self.now) }
    {
        let funcs = Vec::from_slice(alloc, &self.funcs)?;
        let sites = Vec::from_slice(alloc, &self.sites)?;
        Ok(FuncSet { funcs, sites })
    }

    /// The functions, ascending.
    pub fn list(&self) -> &[FuncId]
        ensures functions { func_numbers result.now ≡ self.now.0 }
        ensures ascending { IsRising self.now.0 }
    {
        self.funcs.as_slice()
    }
}

fn reached(alloc: Global, g: &CallGraph) -> Result<Vec<FuncId>, NoMemory>
    ensures { IfOk result (λ funcs. func_numbers funcs.items ≡ reached_from 0 g.now.funcs) }
{
    let mut funcs = Vec::new(alloc);
    for f in 0..g.funcs() {
        if g.reached(FuncId(f)) {
            funcs.push(FuncId(f))?;
        }
    }
    Ok(funcs)
}

/// The candidates inside a set.
fn sites_inside(alloc: Global, g: &CallGraph, funcs: &[FuncId]) -> Result<Vec<SiteId>, NoMemory>
    requires { IsRising (func_numbers funcs.now) }
    ensures { IfOk result (λ sites. site_numbers sites.items ≡ filter (inside (site_graph g.now) (func_numbers funcs.now)) (site_graph g.now).sites) }
{
    let mut sites = Vec::new(alloc);
    for site in g.candidates() {
        if is_inside(g, funcs, *site) {
            sites.push(*site)?;
        }
    }
    Ok(sites)
}
