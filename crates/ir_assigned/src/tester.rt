ghost use Rattle.std.specs.Prelude.{◌≡◌, ◌≢◌, ◌<◌, ◌≤◌, ℕ, List, Option, IfOk, OnOk, MatchOption, length, slice_get, Contains, true, false, Some};
ghost use Rattle.ir_core.specs.declared.func.Func as functions;
ghost use Rattle.ir_core.specs.declared.func.Param as param;
ghost use Rattle.ir_core.specs.Operands.{is_up_to};
ghost use Rattle.ir_assigned.specs.declared.names.Spot as spot;
ghost use Rattle.ir_assigned.specs.declared.uses.Use as usage;
ghost use Rattle.ir_assigned.specs.Names.{AreDefinitions, RegistersDiffer};
ghost use Rattle.ir_assigned.specs.BlockPaths.{block_of, IsBefore, Misses, MissesOn};
ghost use Rattle.ir_assigned.specs.Testing.{IsTesting, IsEarlier, IsFirst, is_known};

use crate::fault::{BlockPath, Unassigned};
use crate::graph::Graph;
use crate::names::Spot;
use crate::search::{Aim, Search};
use crate::table::get;
use crate::uses::Use;
use ir_core::{LocalId, Param};
use oi_base::{NoMemory, Place};
use std::alloc::Global;

/// A test of uses one after another. The marks of the search's last round are those of searches for paths around the
/// definition of `local`, where that is some, none of which found one.
#[derive(Drop)]
pub struct Tester {
    search: Search,
    round: usize,
    local: Option<LocalId>,
}

impl Tester {
    /// A test that tested no use of a function with `count` blocks.
    pub fn start(alloc: Global, count: usize) -> Result<Tester, NoMemory>
        ensures testing { IfOk result (λ t. (f : functions.Func) (definitions : List (Option spot.Spot)) → length f.blocks ≡ count → IsTesting f definitions t) }
        ensures round { IfOk result (λ t. t.round ≡ 0) }
    {
        Ok(Tester {
            search: Search::start(alloc, count)?,
            round: 0,
            local: None,
        })
    }

    /// Goes on with the searches of a register, or begins them with a round of their own.
    fn turn_to(&mut self, local: LocalId, fresh: usize)
        requires fresh { self.old.round < fresh }
        ensures testing { (f : functions.Func) (definitions : List (Option spot.Spot)) → IsTesting f definitions self.old → IsTesting f definitions self.new }
        ensures local { self.new.local ≡ Some local }
        ensures round { self.new.round ≤ fresh }
        ensures positive { (f : functions.Func) (definitions : List (Option spot.Spot)) → IsTesting f definitions self.old → 0 < self.new.round }
    {
        if self.local != Some(local) {
            self.round = fresh;
            self.local = Some(local);
        }
    }

    /// A path to a use on which its register isn't assigned.
    fn path_to(
        &mut self,
        alloc: Global,
        graph: &Graph<'_>,
        definitions: &[Option<Spot>],
        u: Use,
        fresh: usize,
    ) -> Result<Option<BlockPath>, NoMemory>
        requires definitions { AreDefinitions graph.now definitions.now }
        requires apart { RegistersDiffer graph.now }
        requires within { u.block < length graph.now.blocks }
        requires testing { IsTesting graph.now definitions.now self.old }
        requires fresh { self.old.round < fresh }
        ensures testing { OnOk result (IsTesting graph.now definitions.now self.new) }
        ensures round { OnOk result (self.new.round ≤ fresh) }
        ensures exact { IfOk result (λ path. MatchOption path ((before : List ℕ) → MissesOn graph.now u before → ⊥) (Misses graph.now u)) }
    {
        let definition = get(definitions, u.local);
        if is_param(graph.func().params.as_slice(), u.local) || is_before(definition, u) {
            return Ok(None);
        }
        self.turn_to(u.local, fresh);
        let aim = Aim {
            round: self.round,
            around: block_of(definition),
        };
        match self.search.path_from_entry(alloc, graph, aim, u.block)? {
            Some(path) => {
                self.local = None;
                Ok(Some(path))
            }
            None => Ok(None),
        }
    }

    /// What stands first once a use is tested: what did before, or the use.
    fn earlier(
        &mut self,
        alloc: Global,
        graph: &Graph<'_>,
        definitions: &[Option<Spot>],
        u: Use,
        fresh: usize,
        first: Option<Unassigned>,
    ) -> Result<Option<Unassigned>, NoMemory>
        requires definitions { AreDefinitions graph.now definitions.now }
        requires apart { RegistersDiffer graph.now }
        requires within { u.block < length graph.now.blocks }
        requires testing { IsTesting graph.now definitions.now self.old }
        requires fresh { self.old.round < fresh }
        ensures testing { OnOk result (IsTesting graph.now definitions.now self.new) }
        ensures round { OnOk result (self.new.round ≤ fresh) }
        ensures exact { IfOk result (λ next. IsEarlier graph.now u first next) }
    {
        if is_known(&first, u.place) {
            return Ok(first);
        }
        match self.path_to(alloc, graph, definitions, u, fresh)? {
            Some(path) => Ok(Some(Unassigned {
                place: u.place,
                local: u.local,
                path,
            })),
            None => Ok(first),
        }
    }
}

/// The use that stands first among those that some path leads to around the definition.
pub fn first_unassigned(
    alloc: Global,
    graph: &Graph<'_>,
    definitions: &[Option<Spot>],
    uses: &[Use],
) -> Result<Option<Unassigned>, NoMemory>
    requires definitions { AreDefinitions graph.now definitions.now }
    requires apart { RegistersDiffer graph.now }
    requires within { (k : ℕ) (u : usage.Use) → slice_get uses.now k ≡ Some u → u.block < length graph.now.blocks }
    ensures { IfOk result (λ first. IsFirst graph.now uses.now (length uses.now) first) }
{
    let mut tester = Tester::start(alloc, graph.func().blocks.len())?;
    let mut first = None;
    for (k, u) in uses.iter().enumerate() {
        first = tester.earlier(alloc, graph, definitions, *u, k + 1, first)?;
    }
    Ok(first)
}

/// Whether a fault is known at a place or before it.
fn is_known(first: &Option<Unassigned>, place: Place) -> bool
    ensures { result ≡ is_known first.now place }
{
    match first {
        Some(fault) => is_up_to(fault.place, place),
        None => false,
    }
}

/// Whether a place is another one or stands before it.
fn is_up_to(p: Place, q: Place) -> bool
    ensures { result ≡ is_up_to p q }
{
    p.line < q.line || (p.line == q.line && p.column <= q.column)
}

fn is_param(params: &[Param], local: LocalId) -> bool
    ensures yes { result ≡ true → (q : param.Param) × Contains params.now q × (q.name ≡ local) }
    ensures no { result ≡ false → (q : param.Param) → Contains params.now q → q.name ≢ local }
{
    for param in params {
        if param.name == local {
            return true;
        }
    }
    false
}

/// Whether a definition stands before a use in its own block.
fn is_before(definition: Option<Spot>, u: Use) -> bool
    ensures yes { result ≡ true → IsBefore definition u }
    ensures no { result ≡ false → IsBefore definition u → ⊥ }
{
    match definition {
        Some(spot) => spot.block == u.block && spot.at < u.at,
        None => false,
    }
}

fn block_of(definition: Option<Spot>) -> Option<usize>
    ensures { result ≡ block_of definition }
{
    match definition {
        Some(spot) => Some(spot.block),
        None => None,
    }
}
