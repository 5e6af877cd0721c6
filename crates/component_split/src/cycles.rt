ghost use Rattle.std.specs.Prelude.{◌≡◌, false, true, IfOk};
ghost use Rattle.component_split.specs.Graph.{inside, Labels};
ghost use Rattle.component_split.specs.Split.{is_bridge, IsConnected};
ghost use Rattle.component_split.specs.Over.{site_graph, labels, IsSetOf, HoldsInside, IsCandidateNumber};
ghost use Rattle.component_split.specs.Arcs.{ShowCycles};

use crate::arcs::arcs_of;
use crate::orientation::{edges_of, orientation};
use crate::places::ends_among;
use crate::sets::FuncSet;
use call_graph::CallGraph;
use decisions::Partial;
use oi_base::{NoMemory, SiteId};
use std::alloc::Global;
use strong_components::{Graph, Mark, are_joined, components, mark_at};

/// Marks of a set's functions that show which sites are on cycles; nothing is marked where there is no memory.
pub fn cycles(alloc: Global, g: &CallGraph, p: &Partial, s: &FuncSet) -> Vec<Mark>
    requires set { IsSetOf g.now s.now }
    requires map { HoldsInside g.now s.now p.now }
    ensures { ShowCycles (site_graph g.now) (labels p.now) s.now.0 result.items }
{
    match directed_components(alloc, g, p, s) {
        Ok(marks) => marks,
        Err(_) => Vec::new(alloc),
    }
}

/// The strongly connected components of a set's functions, where each site that joins them is given a direction.
fn directed_components(
    alloc: Global,
    g: &CallGraph,
    p: &Partial,
    s: &FuncSet,
) -> Result<Vec<Mark>, NoMemory>
    requires set { IsSetOf g.now s.now }
    requires map { HoldsInside g.now s.now p.now }
    ensures { IfOk result (λ marks. ShowCycles (site_graph g.now) (labels p.now) s.now.0 marks.items) }
{
    let arcs = arcs_of(alloc, g, p, s)?;
    let forth = orientation(alloc, &arcs, s.sites.len())?;
    let edges = edges_of(alloc, &arcs, &forth)?;
    let mut roots = Vec::new(alloc);
    roots.resize(arcs.len(), true)?;
    let graph = Graph {
        roots: roots.as_slice(),
        edges: edges.as_slice(),
    };
    let marks = components(alloc, &graph)?;
    Ok(marks)
}

/// Whether the marks show that a site inside the set is on a cycle, and so is no bridge where the set is connected.
pub fn is_on_cycle(g: &CallGraph, s: &FuncSet, marks: &[Mark], site: SiteId) -> bool
    requires candidate { IsCandidateNumber g.now site.0 }
    requires inside { inside (site_graph g.now) s.now.0 site.0 ≡ true }
    ensures { (p : Labels) → IsConnected (site_graph g.now) p s.now.0 → ShowCycles (site_graph g.now) p s.now.0 marks.now → result ≡ true → is_bridge (site_graph g.now) p s.now.0 site.0 ≡ false }
{
    let ends = ends_among(g, &s.funcs, site);
    are_joined(mark_at(marks, ends.caller), mark_at(marks, ends.callee))
}
