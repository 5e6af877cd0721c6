ghost use Rattle.std.specs.Prelude.{◌≡◌, ◌<◌, ◌≤◌, ℕ, List, true, [], map, replicate, zip, length, IfOk, IfSome, OnOk};
ghost use Rattle.std.specs.List.{filter, All};
ghost use Rattle.component_split.specs.Graph.{has, inside, SiteGraph, Labels};
ghost use Rattle.component_split.specs.Split.{components, lowest, roots};
ghost use Rattle.component_split.specs.Classes.{AreComponentsOf, AreParents};
ghost use Rattle.component_split.specs.Members.{funcs_in, is_head, is_of, AreLows, HaveHeads, IsComponentOf, joined_by, put_at};
ghost use Rattle.component_split.specs.Over.{func_numbers, site_numbers, site_graph, labels, IsRising, IsSetOf, HoldsInside, IsCandidateNumber, AreSitesInside};

use crate::classes::{find, numbers};
use crate::places::place_in;
use crate::sets::FuncSet;
use crate::unions::join_sites;
use call_graph::CallGraph;
use decisions::Partial;
use oi_base::{FuncId, Items, NoMemory, SiteId};
use std::alloc::Global;

/// Components, by lowest function.
pub type Parts = Vec<FuncSet>;

/// A function, with the lowest one of its component.
#[derive(Clone, Copy)]
pub struct Member {
    pub func: FuncId,
    pub low: FuncId,
}

/// The components of a set under a partial map: functions are joined by the sites inside the set that aren't kept, in
/// either direction. Its condition on the map is that it holds each candidate inside the set.
pub fn components(alloc: Global, g: &CallGraph, p: &Partial, s: &FuncSet) -> Result<Parts, NoMemory>
    requires set { IsSetOf g.now s.now }
    requires map { HoldsInside g.now s.now p.now }
    ensures parts { IfOk result (λ parts. map (λ (c : List ℕ × List ℕ). c.0) parts.items ≡ components (site_graph g.now) (labels p.now) s.now.0) }
    ensures sets { IfOk result (λ parts. All (λ c. IsSetOf g.now c) parts.items) }
{
    let (members, heads) = members_and_heads(alloc, g, p, s)?;
    let funcs = deal_funcs(alloc, &heads, &members)?;
    let sites = deal_sites(alloc, g, &heads, &members, &s.funcs, &s.sites)?;
    let parts = sets_of(alloc, &funcs, &sites)?;
    Ok(parts)
}

/// The functions of a set, each with the lowest one of its component, and these lowest ones.
fn members_and_heads(
    alloc: Global,
    g: &CallGraph,
    p: &Partial,
    s: &FuncSet,
) -> Result<(Vec<Member>, Vec<FuncId>), NoMemory>
    requires set { IsSetOf g.now s.now }
    requires map { HoldsInside g.now s.now p.now }
    ensures funcs { IfOk result (λ r. funcs_in r.0.items ≡ s.now.0) }
    ensures lows { IfOk result (λ r. AreLows (lowest (site_graph g.now) (labels p.now) s.now.0) r.0.items) }
    ensures heads { IfOk result (λ r. func_numbers r.1.items ≡ roots (site_graph g.now) (labels p.now) s.now.0) }
    ensures rising { IfOk result (λ r. IsRising (func_numbers r.1.items)) }
{
    let mut parents = numbers(alloc, s.funcs.len())?;
    join_sites(&mut parents, g, p, s, None);
    let members = members_of(alloc, &mut parents, &s.funcs)?;
    let heads = heads_of(alloc, &members)?;
    Ok((members, heads))
}

/// The functions of a set, each with the lowest one of its component.
fn members_of(
    alloc: Global,
    parents: &mut Vec<usize>,
    funcs: &[FuncId],
) -> Result<Vec<Member>, NoMemory>
    requires parents { AreParents parents.old.items }
    requires room { length funcs.now ≤ length parents.old.items }
    ensures funcs { IfOk result (λ members. funcs_in members.items ≡ func_numbers funcs.now) }
    ensures lows { IfOk result (λ members. (g : SiteGraph) (p : Labels) → AreComponentsOf g p (func_numbers funcs.now) parents.old.items → AreLows (lowest g p (func_numbers funcs.now)) members.items) }
{
    let mut members = Vec::new(alloc);
    for at in 0..funcs.len() {
        let root = find(parents, at);
        members.push(Member {
            func: funcs[at],
            low: funcs[root],
        })?;
    }
    Ok(members)
}

/// The lowest function of each component.
fn heads_of(alloc: Global, members: &[Member]) -> Result<Vec<FuncId>, NoMemory>
    ensures { IfOk result (λ heads. func_numbers heads.items ≡ funcs_in (filter is_head members.now)) }
{
    let mut heads = Vec::new(alloc);
    for member in members {
        if member.low.0 == member.func.0 {
            heads.push(member.func)?;
        }
    }
    Ok(heads)
}

/// An empty list for each head.
pub(crate) fn empty_lists<T: Drop>(alloc: Global, count: usize) -> Result<Vec<Items<T>>, NoMemory>
    ensures { IfOk result (λ lists. lists.items ≡ replicate count []) }
{
    let mut lists = Vec::new(alloc);
    for head in 0..count {
        lists.push(Items::new(alloc))?;
    }
    Ok(lists)
}

/// Puts an element at the end of one of the lists.
pub(crate) fn put<T: Drop>(lists: &mut Vec<Items<T>>, at: usize, item: T) -> Result<(), NoMemory>
    requires { at < length lists.old.items }
    ensures { OnOk result (lists.new.items ≡ put_at at item lists.old.items) }
{
    lists[at].push(item)?;
    Ok(())
}

/// The functions of each component.
fn deal_funcs(
    alloc: Global,
    heads: &[FuncId],
    members: &[Member],
) -> Result<Vec<Items<FuncId>>, NoMemory>
    requires rising { IsRising (func_numbers heads.now) }
    requires heads { HaveHeads (func_numbers heads.now) members.now }
    ensures { IfOk result (λ lists. map func_numbers lists.items ≡ map (λ r. funcs_in (filter (is_of r) members.now)) (func_numbers heads.now)) }
{
    let mut lists = empty_lists(alloc, heads.len())?;
    for member in members {
        put(&mut lists, place_in(heads, member.low), member.func)?;
    }
    Ok(lists)
}

/// The lowest function of a function's component.
fn low_of(members: &[Member], funcs: &[FuncId], f: FuncId) -> FuncId
    requires rising { IsRising (func_numbers funcs.now) }
    requires funcs { funcs_in members.now ≡ func_numbers funcs.now }
    requires among { has (func_numbers funcs.now) f.0 ≡ true }
    ensures low { (low : ℕ → ℕ) → AreLows low members.now → result.0 ≡ low f.0 }
    ensures head { (heads : List ℕ) → HaveHeads heads members.now → has heads result.0 ≡ true }
{
    members[place_in(funcs, f)].low
}

/// The component in which both functions of a site are, by its lowest function.
fn component_of(g: &CallGraph, members: &[Member], funcs: &[FuncId], site: SiteId) -> Option<FuncId>
    requires rising { IsRising (func_numbers funcs.now) }
    requires funcs { funcs_in members.now ≡ func_numbers funcs.now }
    requires candidate { IsCandidateNumber g.now site.0 }
    requires inside { inside (site_graph g.now) (func_numbers funcs.now) site.0 ≡ true }
    ensures component { (low : ℕ → ℕ) → AreLows low members.now → IsComponentOf low (site_graph g.now) site.0 result }
    ensures head { (heads : List ℕ) → HaveHeads heads members.now → IfSome result (λ h. has heads h.0 ≡ true) }
{
    let from = low_of(members, funcs, g.caller(site));
    let to = low_of(members, funcs, g.callee(site));
    if from.0 == to.0 { Some(from) } else { None }
}

/// The sites inside each component.
fn deal_sites(
    alloc: Global,
    g: &CallGraph,
    heads: &[FuncId],
    members: &[Member],
    funcs: &[FuncId],
    sites: &[SiteId],
) -> Result<Vec<Items<SiteId>>, NoMemory>
    requires rising { IsRising (func_numbers funcs.now) }
    requires heads_rise { IsRising (func_numbers heads.now) }
    requires funcs { funcs_in members.now ≡ func_numbers funcs.now }
    requires heads { HaveHeads (func_numbers heads.now) members.now }
    requires inside { AreSitesInside g.now (func_numbers funcs.now) (site_numbers sites.now) }
    ensures { IfOk result (λ lists. (low : ℕ → ℕ) → AreLows low members.now → map site_numbers lists.items ≡ map (λ r. filter (joined_by low (site_graph g.now) r) (site_numbers sites.now)) (func_numbers heads.now)) }
{
    let mut lists = empty_lists(alloc, heads.len())?;
    for site in sites {
        if let Some(head) = component_of(g, members, funcs, *site) {
            put(&mut lists, place_in(heads, head), *site)?;
        }
    }
    Ok(lists)
}

/// Sets of functions and sites.
fn sets_of(
    alloc: Global,
    funcs: &[Items<FuncId>],
    sites: &[Items<SiteId>],
) -> Result<Parts, NoMemory>
    requires lengths { length funcs.now ≡ length sites.now }
    requires rising { All (λ fs. IsRising (func_numbers fs)) funcs.now }
    ensures { IfOk result (λ parts. parts.items ≡ zip (map func_numbers funcs.now) (map site_numbers sites.now)) }
{
    let mut parts = Vec::new(alloc);
    for at in 0..funcs.len() {
        parts.push(FuncSet {
            funcs: Vec::from_slice(alloc, funcs[at].as_slice())?,
            sites: Vec::from_slice(alloc, sites[at].as_slice())?,
        })?;
    }
    Ok(parts)
}
