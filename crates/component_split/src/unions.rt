ghost use Rattle.std.specs.Prelude.{◌≡◌, ◌≤◌, true, length, IsSome};
ghost use Rattle.decisions.specs.Maps.{label_of};
ghost use Rattle.component_split.specs.Graph.{has, inside, joins};
ghost use Rattle.component_split.specs.Classes.{AreApart, AreComponentsOf, JoinsEnds, AreParents, kept_but, own_parents};
ghost use Rattle.component_split.specs.Over.{func_numbers, site_numbers, site_graph, caller_of, callee_of, labels, IsRising, IsSetOf, HoldsInside, IsCandidateNumber};

use crate::classes::join;
use crate::places::ends_among;
use crate::sets::FuncSet;
use crate::states::joins;
use call_graph::CallGraph;
use decisions::Partial;
use oi_base::{FuncId, SiteId};

/// Joins the functions that the sites inside a set join, but for one site.
pub fn join_sites(
    parents: &mut Vec<usize>,
    g: &CallGraph,
    p: &Partial,
    s: &FuncSet,
    but: Option<SiteId>,
)
    requires set { IsSetOf g.now s.now }
    requires map { HoldsInside g.now s.now p.now }
    requires apart { AreApart (length s.now.0) parents.old.items }
    ensures classes { AreComponentsOf (site_graph g.now) (kept_but (labels p.now) but) s.now.0 parents.new.items }
    ensures length { length parents.new.items ≡ length parents.old.items }
{
    let mut i = s.sites.len();
    while i > 0 {
        i -= 1;
        let site = s.sites[i];
        if joins_but(p, site, but) {
            join_ends(parents, g, s.funcs.as_slice(), site);
        }
    }
}

/// Whether a site that the map holds isn't kept, where one more site is kept.
fn joins_but(p: &Partial, site: SiteId, but: Option<SiteId>) -> bool
    requires { IsSome (label_of p.now site) }
    ensures { result ≡ joins (kept_but (labels p.now) but site.0) }
{
    match but {
        Some(kept) => kept.0 != site.0 && joins(p, site),
        None => joins(p, site),
    }
}

/// Joins the positions of a candidate's functions.
fn join_ends(parents: &mut Vec<usize>, g: &CallGraph, funcs: &[FuncId], site: SiteId)
    requires rising { IsRising (func_numbers funcs.now) }
    requires parents { AreParents parents.old.items }
    requires room { length funcs.now ≤ length parents.old.items }
    requires candidate { IsCandidateNumber g.now site.0 }
    requires inside { inside (site_graph g.now) (func_numbers funcs.now) site.0 ≡ true }
    ensures { JoinsEnds (func_numbers funcs.now) (caller_of g.now site.0) (callee_of g.now site.0) parents.old.items parents.new.items }
{
    let ends = ends_among(g, funcs, site);
    join(parents, ends.caller, ends.callee);
}

/// How many of the first numbers are their own parents.
pub fn count_roots(parents: &[usize], n: usize) -> usize
    requires { n ≤ length parents.now }
    ensures { result ≡ own_parents parents.now n }
{
    let mut count = 0;
    for at in 0..n {
        if parents[at] == at {
            count += 1;
        }
    }
    count
}
