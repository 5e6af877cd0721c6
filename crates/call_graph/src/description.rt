ghost use Rattle.std.specs.Prelude.{◌≡◌, ◌≤◌, length, IfOk};
ghost use Rattle.strong_components.specs.Chains.{IsRootIn};
ghost use Rattle.strong_components.specs.Walk.{AreComponents};
ghost use Rattle.call_graph.specs.Sites.{all_sites};
ghost use Rattle.call_graph.specs.Edges.{edges_of, are_external};
ghost use Rattle.call_graph.specs.Graph.{IsGraph};

use crate::edges::{are_external, edges_of};
use crate::facts::{FuncFacts, SiteFacts, func_facts, site_facts};
use crate::functions::Functions;
use crate::sites::{Site, sites_of};
use ir_core::{Func, MOST_FUNCTIONS};
use oi_base::NoMemory;
use std::alloc::Global;
use strong_components::{Graph, Mark, components};

/// What is said of each function and of each site.
#[derive(Drop)]
pub struct Description {
    pub funcs: Vec<FuncFacts>,
    pub sites: Vec<SiteFacts>,
}

/// The call graph of functions.
pub fn describe(alloc: Global, funcs: &[Func], free: bool) -> Result<Description, NoMemory>
    requires { length funcs.now ≤ MOST_FUNCTIONS }
    ensures { IfOk result (λ d. IsGraph funcs.now free (record { funcs = d.funcs.items; sites = d.sites.items })) }
{
    let sites = all_sites(alloc, funcs)?;
    let marks = marks_of(alloc, funcs, sites.as_slice())?;
    Ok(Description {
        funcs: func_facts(alloc, funcs, marks.as_slice())?,
        sites: site_facts(alloc, funcs, marks.as_slice(), free, sites.as_slice())?,
    })
}

fn all_sites(alloc: Global, funcs: &[Func]) -> Result<Vec<Site>, NoMemory>
    requires { length funcs.now ≤ MOST_FUNCTIONS }
    ensures { IfOk result (λ sites. sites.items ≡ all_sites funcs.now) }
{
    let functions = Functions::of(alloc, funcs)?;
    sites_of(alloc, &functions)
}

/// The components of the functions that are reached.
fn marks_of(alloc: Global, funcs: &[Func], sites: &[Site]) -> Result<Vec<Mark>, NoMemory>
    requires { sites.now ≡ all_sites funcs.now }
    ensures { IfOk result (λ marks. AreComponents (length (are_external funcs.now)) (edges_of sites.now) (IsRootIn (are_external funcs.now)) marks.items) }
{
    let roots = are_external(alloc, funcs)?;
    let edges = edges_of(alloc, sites)?;
    let graph = Graph {
        roots: roots.as_slice(),
        edges: edges.as_slice(),
    };
    components(alloc, &graph)
}
