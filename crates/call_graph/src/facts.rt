ghost use Rattle.std.specs.Prelude.{◌≡◌, ◌≤◌, ◌<◌, length, IfOk};
ghost use Rattle.call_graph.specs.Facts.{is_closed, func_facts, are_apart, may_be_inlined, is_candidate, site_facts};
ghost use Rattle.call_graph.specs.Graph.{candidates_from};

use crate::sites::Site;
use ir_core::{Func, MOST_SITES};
use oi_base::{NoMemory, SiteId};
use std::alloc::Global;
use strong_components::{Mark, mark_at};

/// What is said of a function.
#[derive(Clone, Copy)]
pub struct FuncFacts {
    pub external: bool,
    pub reached: bool,
}

/// What is said of a site.
#[derive(Clone, Copy)]
pub struct SiteFacts {
    pub site: Site,
    pub candidate: bool,
}

/// What is said of each function.
pub fn func_facts(alloc: Global, funcs: &[Func], marks: &[Mark]) -> Result<Vec<FuncFacts>, NoMemory>
    ensures { IfOk result (λ facts. facts.items ≡ func_facts marks.now 0 funcs.now) }
{
    let mut facts = Vec::new(alloc);
    for (f, func) in funcs.iter().enumerate() {
        facts.push(FuncFacts {
            external: !func.internal,
            reached: is_closed(mark_at(marks, f)),
        })?;
    }
    Ok(facts)
}

/// What is said of each site.
pub fn site_facts(
    alloc: Global,
    funcs: &[Func],
    marks: &[Mark],
    free: bool,
    sites: &[Site],
) -> Result<Vec<SiteFacts>, NoMemory>
    ensures { IfOk result (λ facts. facts.items ≡ site_facts funcs.now marks.now free sites.now) }
{
    let mut facts = Vec::new(alloc);
    for site in sites {
        facts.push(SiteFacts {
            site: *site,
            candidate: is_candidate(funcs, marks, free, site),
        })?;
    }
    Ok(facts)
}

/// The numbers of the candidates, from 1.
pub fn candidates(alloc: Global, facts: &[SiteFacts]) -> Result<Vec<SiteId>, NoMemory>
    requires { length facts.now ≤ MOST_SITES }
    ensures { IfOk result (λ ids. ids.items ≡ candidates_from 1 facts.now) }
{
    let mut ids = Vec::new(alloc);
    for (k, fact) in facts.iter().enumerate() {
        if fact.candidate {
            ids.push(SiteId(k as u32 + 1))?;
        }
    }
    Ok(ids)
}

fn is_candidate(funcs: &[Func], marks: &[Mark], free: bool, site: &Site) -> bool
    ensures { result ≡ is_candidate funcs.now marks.now free site.now }
{
    let caller = mark_at(marks, site.caller.0 as usize);
    let callee = mark_at(marks, site.callee.0 as usize);
    are_apart(caller, callee) && may_be_inlined(funcs, free, site.callee.0 as usize)
}

/// Whether two functions are in components, and in two.
fn are_apart(a: Mark, b: Mark) -> bool
    ensures { result ≡ are_apart a b }
{
    match (a, b) {
        (Mark::Closed(a), Mark::Closed(b)) => a != b,
        _ => false,
    }
}

fn may_be_inlined(funcs: &[Func], free: bool, f: usize) -> bool
    ensures { result ≡ may_be_inlined funcs.now free f }
{
    match funcs.get(f) {
        Some(func) => free || !func.noinline,
        None => false,
    }
}

fn is_closed(mark: Mark) -> bool
    ensures { result ≡ is_closed mark }
{
    match mark {
        Mark::Closed(_) => true,
        Mark::Open(_) => false,
        Mark::Unseen => false,
    }
}
