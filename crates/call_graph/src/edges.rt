ghost use Rattle.std.specs.Prelude.{◌≡◌, IfOk};
ghost use Rattle.call_graph.specs.Edges.{edges_of, are_external};

use crate::sites::Site;
use ir_core::Func;
use oi_base::NoMemory;
use std::alloc::Global;
use strong_components::Edge;

/// The sites as edges of a graph whose nodes are the functions.
pub fn edges_of(alloc: Global, sites: &[Site]) -> Result<Vec<Edge>, NoMemory>
    ensures { IfOk result (λ edges. edges.items ≡ edges_of sites.now) }
{
    let mut edges = Vec::new(alloc);
    for site in sites {
        edges.push(Edge {
            from: site.caller.0 as usize,
            to: site.callee.0 as usize,
        })?;
    }
    Ok(edges)
}

/// Of each function whether it is external.
pub fn are_external(alloc: Global, funcs: &[Func]) -> Result<Vec<bool>, NoMemory>
    ensures { IfOk result (λ external. external.items ≡ are_external funcs.now) }
{
    let mut external = Vec::new(alloc);
    for func in funcs {
        external.push(!func.internal)?;
    }
    Ok(external)
}
