ghost use Rattle.std.specs.Prelude.{◌≡◌, map, nat_eq, IfOk, OnOk};
ghost use Rattle.ir_core.specs.ValidModule.{BreaksSymbolTwice};
ghost use Rattle.module_rules.specs.First.{earliest, IsFound};
ghost use Rattle.std.specs.Map.{lookup};
ghost use Rattle.module_rules.specs.SymbolFaults.{later, sooner, again_at, least_with, no_symbols, with_symbol, with_symbols, symbols_of};

use crate::first::{earlier, is_up_to};
use indexmap::IndexMap;
use ir_core::{Declaration, Func, GlobalVar, Module, SymId};
use oi_base::{NoMemory, Place};
use std::alloc::Global;
use std::marker::Model;

/// The least place so far of each symbol, and the first place at which one of them was introduced again.
#[derive(Drop)]
struct Symbols {
    least: IndexMap<u32, Place>,
    first: Option<Place>,
}

impl Model for Symbols {
    ghost use Rattle.module_rules.specs.SymbolFaults as faults;

    ghost Value = { faults.Symbols };

    ghost view = { λ s. record { least = s.least.entries; first = s.first } };
}

impl Symbols {
    fn new(alloc: Global) -> Symbols
        ensures { result ≡ no_symbols }
    {
        Symbols {
            least: IndexMap::new(alloc),
            first: None,
        }
    }

    fn first(&self) -> Option<Place>
        ensures { result ≡ self.now.first }
    {
        self.first
    }

    fn add(&mut self, name: SymId, place: Place) -> Result<(), NoMemory>
        ensures { OnOk result (self.new ≡ with_symbol self.old (record { name = name; place = place })) }
    {
        let known = self.known(name);
        self.first = again_at(self.first, known, place);
        self.least.insert(name.0, least_with(known, place))?;
        Ok(())
    }

    fn known(&self, name: SymId) -> Option<Place>
        ensures { result ≡ lookup (nat_eq name.0) self.now.least }
    {
        match self.least.get(&name.0) {
            Some(place) => Some(*place),
            None => None,
        }
    }
}

fn again_at(first: Option<Place>, known: Option<Place>, place: Place) -> Option<Place>
    ensures { result ≡ earliest first (again_at known place) }
{
    match known {
        Some(other) => earlier(first, later(other, place)),
        None => first,
    }
}

fn least_with(known: Option<Place>, place: Place) -> Place
    ensures { result ≡ least_with known place }
{
    match known {
        Some(other) => sooner(other, place),
        None => place,
    }
}

fn later(p: Place, q: Place) -> Place
    ensures { result ≡ later p q }
{
    if is_up_to(p, q) { q } else { p }
}

fn sooner(p: Place, q: Place) -> Place
    ensures { result ≡ sooner p q }
{
    if is_up_to(p, q) { p } else { q }
}

/// The first symbol that is introduced a second time, by a global variable, a definition or a declaration.
pub fn first_break(alloc: Global, m: &Module) -> Result<Option<Place>, NoMemory>
    ensures found { IfOk result (IsFound (BreaksSymbolTwice m.now)) }
{
    let symbols = introduce(alloc, m)?;
    Ok(symbols.first())
}

fn introduce(alloc: Global, m: &Module) -> Result<Symbols, NoMemory>
    ensures { IfOk result (λ s. s ≡ symbols_of m.now) }
{
    let mut symbols = Symbols::new(alloc);
    add_globals(&mut symbols, m.globals.as_slice())?;
    add_funcs(&mut symbols, m.funcs.as_slice())?;
    add_declared(&mut symbols, m.declared.as_slice())?;
    Ok(symbols)
}

fn add_globals(to: &mut Symbols, globals: &[GlobalVar]) -> Result<(), NoMemory>
    ensures { OnOk result (to.new ≡ with_symbols to.old (map (λ g. record { name = g.name; place = g.place }) globals.now)) }
{
    for global in globals {
        to.add(global.name, global.place)?;
    }
    Ok(())
}

fn add_funcs(to: &mut Symbols, funcs: &[Func]) -> Result<(), NoMemory>
    ensures { OnOk result (to.new ≡ with_symbols to.old (map (λ f. record { name = f.name; place = f.place }) funcs.now)) }
{
    for func in funcs {
        to.add(func.name, func.place)?;
    }
    Ok(())
}

fn add_declared(to: &mut Symbols, declared: &[Declaration]) -> Result<(), NoMemory>
    ensures { OnOk result (to.new ≡ with_symbols to.old (map (λ d. record { name = d.name; place = d.place }) declared.now)) }
{
    for declaration in declared {
        to.add(declaration.name, declaration.place)?;
    }
    Ok(())
}
