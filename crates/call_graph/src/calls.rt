ghost use Rattle.std.specs.Prelude.{◌≡◌, ◌+◌, ◌-◌, ◌<◌, ◌≤◌, ℕ, length, true, IsTrue, IfOk, IfSome, slice_get, Some, Contains, ◌↔◌};
ghost use Rattle.call_graph.specs.declared.facts.FuncFacts as func_facts;
ghost use Rattle.call_graph.specs.declared.facts.SiteFacts as site_facts;
ghost use Rattle.oi_base.specs.declared.ids.SiteId as site_id;
ghost use Rattle.oi_base.specs.Ascending.{IsAscending};
ghost use Rattle.call_graph.specs.Graph.{IsGraph, IsNumber, SiteIs, IsCandidateOf, candidate_ids};

use crate::description::describe;
use crate::facts::{FuncFacts, SiteFacts, candidates};
use ir_core::Verified;
use oi_base::{FuncId, NoMemory, Place, SiteId};
use std::alloc::Global;
use std::marker::Model;

/// The sites of a module, which functions are reached, and which sites are candidates for inlining. A site is a call of a
/// function that the module defines; sites are numbered from 1 in text order. Contracts see what is said of each function
/// and of each site.
#[derive(Drop)]
pub struct CallGraph {
    funcs: Vec<FuncFacts>,
    sites: Vec<SiteFacts>,
    candidates: Vec<SiteId>,
}

impl Model for CallGraph {
    ghost use Rattle.std.specs.Prelude.{◌≡◌, ◌≤◌, length};
    ghost use Rattle.ir_core.specs.declared.limits.TheConstants as limits;
    ghost use Rattle.call_graph.specs.Graph as graphs;

    ghost Value = { graphs.Graph };

    ghost coded = { graphs.coded_graph };

    ghost view = { λ g. record { funcs = g.funcs.items; sites = g.sites.items } };

    ghost invariant = { λ g. (g.candidates.items ≡ graphs.candidates_from 1 g.sites.items) × (length g.funcs.items ≤ limits.MOST_FUNCTIONS) × (length g.sites.items ≤ limits.MOST_SITES) };
}

/// The call graph of a module. Where `free` is true, `noinline` on a function has no effect. The time is linear in the
/// module's text.
pub fn graph(alloc: Global, v: &Verified, free: bool) -> Result<CallGraph, NoMemory>
    ensures { IfOk result (λ g. IsGraph v.now.funcs free g) }
{
    let module = v.module();
    let description = describe(alloc, module.funcs.as_slice(), free)?;
    Ok(CallGraph {
        candidates: candidates(alloc, description.sites.as_slice())?,
        funcs: description.funcs,
        sites: description.sites,
    })
}

impl CallGraph {
    /// How many functions the module defines.
    pub fn funcs(&self) -> u32
        ensures { result ≡ length self.now.funcs }
    {
        self.funcs.len() as u32
    }

    /// How many sites there are.
    pub fn sites(&self) -> u32
        ensures { result ≡ length self.now.sites }
    {
        self.sites.len() as u32
    }

    pub fn caller(&self, s: SiteId) -> FuncId
        requires { IsNumber self.now s }
        ensures { (x : site_facts.SiteFacts) → SiteIs self.now s x → result ≡ x.site.caller }
    {
        self.facts(s).site.caller
    }

    pub fn callee(&self, s: SiteId) -> FuncId
        requires { IsNumber self.now s }
        ensures { (x : site_facts.SiteFacts) → SiteIs self.now s x → result ≡ x.site.callee }
    {
        self.facts(s).site.callee
    }

    /// Whether a site is a candidate: its caller is reached, no chain of sites leads from its callee back to its caller,
    /// and its callee may be inlined.
    pub fn candidate(&self, s: SiteId) -> bool
        requires { IsNumber self.now s }
        ensures { (x : site_facts.SiteFacts) → SiteIs self.now s x → result ≡ x.candidate }
    {
        self.facts(s).candidate
    }

    /// The place of a site: that of its call.
    pub fn place(&self, s: SiteId) -> Place
        requires { IsNumber self.now s }
        ensures { (x : site_facts.SiteFacts) → SiteIs self.now s x → result ≡ x.site.place }
    {
        self.facts(s).site.place
    }

    /// Whether a chain of sites leads to the function from an external one.
    pub fn reached(&self, f: FuncId) -> bool
        requires { f.0 < length self.now.funcs }
        ensures { (x : func_facts.FuncFacts) → slice_get self.now.funcs f.0 ≡ Some x → result ≡ x.reached }
    {
        self.funcs[f.0 as usize].reached
    }

    /// Whether the function is neither `internal` nor `private`.
    pub fn external(&self, f: FuncId) -> bool
        requires { f.0 < length self.now.funcs }
        ensures { (x : func_facts.FuncFacts) → slice_get self.now.funcs f.0 ≡ Some x → result ≡ x.external }
    {
        self.funcs[f.0 as usize].external
    }

    /// The candidates, ascending.
    pub fn candidates(&self) -> &[SiteId]
        ensures value { result.now ≡ candidate_ids self.now }
        ensures ascending { IsAscending result.now }
        ensures exactly { (s : site_id.SiteId) → Contains result.now s ↔ IsCandidateOf self.now s }
    {
        self.candidates.as_slice()
    }

    fn facts(&self, s: SiteId) -> &SiteFacts
        requires { IsNumber self.now s }
        ensures { SiteIs self.now s result.now }
    {
        &self.sites[s.0 as usize - 1]
    }
}
