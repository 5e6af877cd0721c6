ghost use Rattle.std.specs.Prelude.{◌≡◌, ◌≤◌, ◌<◌, ◌+◌, ◌^◌, ◌&&◌, ℕ, false, true, if◌then◌else◌, length, slice_index, IfSome, IfNone, None, []};
ghost use Rattle.std.specs.List.{All};
ghost use Rattle.component_split.specs.Graph.{has, inside, is_open};
ghost use Rattle.component_split.specs.Split.{is_bridge, open_sites, IsConnected};
ghost use Rattle.component_split.specs.Chosen.{chosen, first_bridge, heaviest_from, heavier_of, number_or, site_number, touches, AreDegrees};
ghost use Rattle.component_split.specs.Arcs.{ShowCycles};
ghost use Rattle.component_split.specs.Tree.{is_decided};
ghost use Rattle.component_split.specs.Over.{func_numbers, site_graph, caller_of, callee_of, labels, IsSetOf, HoldsInside, IsMarksOf, IsCandidateNumber, IsCounted};

use crate::cycles::{cycles, is_on_cycle};
use crate::marks::{Marks, is_bridge};
use crate::sets::FuncSet;
use crate::states::{ends_of, is_open};
use call_graph::CallGraph;
use decisions::Partial;
use oi_base::{FuncId, SiteId};
use strong_components::Mark;

/// The site on which the search branches: the lowest undecided site inside the set whose removal disconnects it, else
/// the first one whose two functions have the greatest sum of degrees, which count undecided sites inside the set. Its
/// conditions are that the map holds each candidate inside the set, that the set is connected, and that an undecided site is
/// inside.
pub fn choose(g: &CallGraph, p: &Partial, s: &FuncSet, marks: &mut Marks) -> SiteId
    requires set { IsSetOf g.now s.now }
    requires map { HoldsInside g.now s.now p.now }
    requires marks { IsMarksOf g.now marks.old }
    requires connected { IsConnected (site_graph g.now) (labels p.now) s.now.0 }
    requires undecided { is_decided (site_graph g.now) (labels p.now) s.now.0 ≡ false }
    ensures chosen { result.0 ≡ chosen (site_graph g.now) (labels p.now) s.now.0 }
    ensures marks { marks.new ≡ marks.old }
{
    match lowest_bridge(g, p, s, marks) {
        Some(site) => site,
        None => match heaviest(g, p, s, &mut marks.degrees) {
            Some(site) => site,
            None => unreachable!(),
        },
    }
}

/// The lowest undecided site inside the set whose removal disconnects it.
fn lowest_bridge(g: &CallGraph, p: &Partial, s: &FuncSet, marks: &mut Marks) -> Option<SiteId>
    requires set { IsSetOf g.now s.now }
    requires map { HoldsInside g.now s.now p.now }
    requires marks { IsMarksOf g.now marks.old }
    requires connected { IsConnected (site_graph g.now) (labels p.now) s.now.0 }
    ensures bridge { (other : ℕ) → first_bridge (site_graph g.now) (labels p.now) s.now.0 (open_sites (site_graph g.now) (labels p.now) s.now.0) other ≡ number_or result other }
    ensures marks { marks.new ≡ marks.old }
{
    let cycles = cycles(marks.alloc, g, p, s);
    for site in &s.sites {
        if is_open_bridge(g, p, s, *site, &cycles, marks) {
            return Some(*site);
        }
    }
    None
}

/// Whether a candidate is undecided, and the set without it has several components. A site on a cycle is passed over.
fn is_open_bridge(
    g: &CallGraph,
    p: &Partial,
    s: &FuncSet,
    site: SiteId,
    cycles: &[Mark],
    marks: &mut Marks,
) -> bool
    requires set { IsSetOf g.now s.now }
    requires map { HoldsInside g.now s.now p.now }
    requires marks { IsMarksOf g.now marks.old }
    requires connected { IsConnected (site_graph g.now) (labels p.now) s.now.0 }
    requires cycles { ShowCycles (site_graph g.now) (labels p.now) s.now.0 cycles.now }
    requires candidate { IsCandidateNumber g.now site.0 }
    requires inside { inside (site_graph g.now) s.now.0 site.0 ≡ true }
    ensures bridge { result ≡ (is_open (labels p.now site.0) && is_bridge (site_graph g.now) (labels p.now) s.now.0 site.0) }
    ensures marks { marks.new ≡ marks.old }
{
    if !is_open(p, site) || is_on_cycle(g, s, cycles, site) {
        return false;
    }
    is_bridge(g, p, s, site, marks)
}

/// The first undecided site inside the set whose two functions have the greatest sum of degrees.
fn heaviest(g: &CallGraph, p: &Partial, s: &FuncSet, degrees: &mut Vec<usize>) -> Option<SiteId>
    requires set { IsSetOf g.now s.now }
    requires map { HoldsInside g.now s.now p.now }
    requires room { length degrees.old.items ≡ length g.now.funcs }
    ensures heaviest { heaviest_from (site_graph g.now) (open_sites (site_graph g.now) (labels p.now) s.now.0) (site_number result) [] ≡ heaviest_from (site_graph g.now) (open_sites (site_graph g.now) (labels p.now) s.now.0) None (open_sites (site_graph g.now) (labels p.now) s.now.0) }
    ensures some { IfNone result (is_decided (site_graph g.now) (labels p.now) s.now.0 ≡ true) }
    ensures room { length degrees.new.items ≡ length degrees.old.items }
{
    count_degrees(g, p, s, degrees);
    let mut best = None;
    for site in &s.sites {
        if is_open(p, *site) {
            best = Some(heavier(g, degrees, best, *site));
        }
    }
    best
}

/// Counts for each function the undecided sites inside the set that have it as caller or callee.
fn count_degrees(g: &CallGraph, p: &Partial, s: &FuncSet, degrees: &mut Vec<usize>)
    requires set { IsSetOf g.now s.now }
    requires map { HoldsInside g.now s.now p.now }
    requires room { length degrees.old.items ≡ length g.now.funcs }
    ensures degrees { AreDegrees (site_graph g.now) s.now.0 (open_sites (site_graph g.now) (labels p.now) s.now.0) degrees.new.items }
    ensures room { length degrees.new.items ≡ length degrees.old.items }
{
    clear(degrees, &s.funcs);
    for site in &s.sites {
        if is_open(p, *site) {
            count_site(g, *site, degrees);
        }
    }
}

/// No function has a degree yet.
fn clear(degrees: &mut Vec<usize>, funcs: &[FuncId])
    requires { All (λ f. f < length degrees.old.items) (func_numbers funcs.now) }
    ensures zero { (f : ℕ) → has (func_numbers funcs.now) f ≡ true → slice_index degrees.new.items f ≡ 0 }
    ensures room { length degrees.new.items ≡ length degrees.old.items }
{
    for f in funcs {
        degrees[f.0 as usize] = 0;
    }
}

/// Counts a site for its functions.
fn count_site(g: &CallGraph, site: SiteId, degrees: &mut Vec<usize>)
    requires { IsCounted g.now degrees.old.items site.0 }
    ensures degrees { (f : ℕ) → slice_index degrees.new.items f ≡ slice_index degrees.old.items f + (if touches (site_graph g.now) f site.0 then 1 else 0) }
    ensures room { length degrees.new.items ≡ length degrees.old.items }
{
    let ends = ends_of(g, site);
    degrees[ends.caller] += 1;
    if ends.callee != ends.caller {
        degrees[ends.callee] += 1;
    }
}

/// The heavier of two sites, the first one where they are equal.
fn heavier(g: &CallGraph, degrees: &[usize], best: Option<SiteId>, site: SiteId) -> SiteId
    requires site { IsCounted g.now degrees.now site.0 }
    requires best { IfSome best (λ b. IsCounted g.now degrees.now b.0) }
    ensures { result.0 ≡ heavier_of (slice_index degrees.now) (site_graph g.now) best site.0 }
{
    match best {
        Some(b) => {
            if weight(g, degrees, b) < weight(g, degrees, site) {
                site
            } else {
                b
            }
        }
        None => site,
    }
}

/// The sum of the degrees of a site's functions.
fn weight(g: &CallGraph, degrees: &[usize], site: SiteId) -> usize
    requires { IsCounted g.now degrees.now site.0 }
    ensures { result ≡ slice_index degrees.now (caller_of g.now site.0) + slice_index degrees.now (callee_of g.now site.0) }
{
    let ends = ends_of(g, site);
    degrees[ends.caller] + degrees[ends.callee]
}
