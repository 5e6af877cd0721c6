ghost use Rattle.std.specs.Prelude.{◌≡◌, true, length, IfOk, OnOk};
ghost use Rattle.component_split.specs.Graph.{inside};
ghost use Rattle.component_split.specs.Over.{func_numbers, site_graph, caller_of, callee_of, labels, IsRising, IsSetOf, HoldsInside, IsCandidateNumber};
ghost use Rattle.component_split.specs.Arcs.{AreArcs, PutsArcs};

use crate::parts::{empty_lists, put};
use crate::places::ends_among;
use crate::sets::FuncSet;
use crate::states::joins;
use call_graph::CallGraph;
use decisions::Partial;
use oi_base::{FuncId, Items, NoMemory, SiteId};
use std::alloc::Global;

/// A site of a set, from one of its functions to the other.
#[derive(Clone, Copy)]
pub struct Arc {
    /// The position of the site among those of the set.
    pub site: usize,
    /// The position of the function to which it leads among those of the set.
    pub to: usize,
    /// Whether it leads from the caller to the callee.
    pub forth: bool,
}

/// For each function of a set the arcs that leave it: each site that joins its functions has one from either.
pub fn arcs_of(
    alloc: Global,
    g: &CallGraph,
    p: &Partial,
    s: &FuncSet,
) -> Result<Vec<Items<Arc>>, NoMemory>
    requires set { IsSetOf g.now s.now }
    requires map { HoldsInside g.now s.now p.now }
    ensures count { IfOk result (λ arcs. length arcs.items ≡ length s.now.0) }
    ensures arcs { IfOk result (λ arcs. AreArcs (site_graph g.now) (labels p.now) s.now.0 s.now.1 arcs.items) }
{
    let mut arcs = empty_lists(alloc, s.funcs.len())?;
    for (at, site) in s.sites.iter().enumerate() {
        if joins(p, *site) {
            put_arcs(g, s.funcs.as_slice(), *site, at, &mut arcs)?;
        }
    }
    Ok(arcs)
}

/// Puts both arcs of the site that stands at a position.
fn put_arcs(
    g: &CallGraph,
    funcs: &[FuncId],
    site: SiteId,
    at: usize,
    arcs: &mut Vec<Items<Arc>>,
) -> Result<(), NoMemory>
    requires rising { IsRising (func_numbers funcs.now) }
    requires candidate { IsCandidateNumber g.now site.0 }
    requires inside { inside (site_graph g.now) (func_numbers funcs.now) site.0 ≡ true }
    requires count { length arcs.old.items ≡ length funcs.now }
    ensures { OnOk result (PutsArcs (func_numbers funcs.now) (caller_of g.now site.0) (callee_of g.now site.0) at arcs.old.items arcs.new.items) }
{
    let ends = ends_among(g, funcs, site);
    let forth = Arc {
        site: at,
        to: ends.callee,
        forth: true,
    };
    let back = Arc {
        site: at,
        to: ends.caller,
        forth: false,
    };
    put(arcs, ends.caller, forth)?;
    put(arcs, ends.callee, back)?;
    Ok(())
}
