ghost use Rattle.std.specs.Prelude.{◌≡◌, ◌++◌, map, List, IfOk, OnOk};
ghost use Rattle.ir_core.specs.declared.module.Module as modules;
ghost use Rattle.ir_core.specs.Places.{AreSameButForPlaces};
ghost use Rattle.ir_grammar.specs.Reading.{Reads, ReadsWithinLimits, IsReadable, IsReadableWithinLimits};
ghost use Rattle.ir_printer.specs.Printed.{type_demand, global_demand, func_demand, declaration_demand, demands_of, Entity, target_line, all_of, placed, printed};
ghost use Rattle.ir_printer.specs.Pages.{all_text};

use crate::demands::{Demand, Demands};
use crate::marks::Sheet;
use crate::order::{Kind, order_of};
use crate::page::{Page, Unplaced};
use crate::spelling::name_at;
use crate::words::Word;
use ir_core::{Declaration, Func, GlobalVar, Module, TypeDef};
use oi_base::{Items, NoMemory, Text};
use std::alloc::Global;

/// The text of a readable module in clang's layout (LangRef, "Module Structure"): an instruction a line after two blanks,
/// each block with its label, and a blank line before a function and where the kind of entity changes. Every name is
/// printed, in quotes where it needs them, and entities stand in an order in which symbols and type names first appear in
/// the module's order. So the text is read as the module, but for places, and within the limits where the module was read
/// within them.
pub fn print_module(alloc: Global, m: &Module) -> Result<Vec<u8>, NoMemory>
    requires readable { IsReadable m.now }
    ensures text { IfOk result (λ text. text.items ≡ printed m.now) }
    ensures reads_back { IfOk result (λ text. (n : modules.Module) × Reads text.items n × AreSameButForPlaces n m.now) }
    ensures within { IfOk result (λ text. (n : modules.Module) → ReadsWithinLimits text.items n → AreSameButForPlaces n m.now) }
    ensures stays_within { IfOk result (λ text. IsReadableWithinLimits m.now → (n : modules.Module) × ReadsWithinLimits text.items n × AreSameButForPlaces n m.now) }
{
    text_of(alloc, m)
}

/// The text of a module: one entity after the other, in an order in which symbols and type names first appear in the
/// module's order, where there is one.
#[tactic(auto, unfolding(crate::specs::Printed::printed))]
fn text_of(alloc: Global, m: &Module) -> Result<Vec<u8>, NoMemory>
    ensures { IfOk result (λ text. text.items ≡ printed m.now) }
{
    let demands = demands_of(alloc, m)?;
    let kinds = order_of(alloc, &demands)?;
    let mut page = Page::new(alloc, m);
    print_target(&mut page, Word::DataLayout, &m.layout)?;
    print_target(&mut page, Word::Triple, &m.triple)?;
    print_entities(&mut page, m, kinds.as_slice())?;
    Ok(page.into_text())
}

/// The line that says the layout or the triple, where the module has it.
fn print_target(page: &mut Page<'_>, word: Word, said: &Option<Text>) -> Result<(), NoMemory>
    ensures { OnOk result ((es : List Entity) → all_text page.new es ≡ all_text page.old (target_line word said.now ++ es)) }
{
    match said {
        Some(said) => page.target_line(word, said.as_slice()),
        None => Ok(()),
    }
}

/// The entities in the order of these kinds.
fn print_entities(page: &mut Page<'_>, m: &Module, kinds: &[Kind]) -> Result<(), NoMemory>
    ensures { OnOk result (page.new.text ≡ all_text page.old (placed kinds.now (all_of m.now))) }
{
    let mut left = Unplaced::all(m);
    for kind in kinds {
        page.place(*kind, &mut left)?;
    }
    Ok(())
}

fn demands_of(alloc: Global, m: &Module) -> Result<Demands, NoMemory>
    ensures { IfOk result (λ ds. ds ≡ demands_of m.now) }
{
    let types = type_demands(alloc, m.types.defs.as_slice())?;
    let globals = global_demands(alloc, m.globals.as_slice())?;
    let funcs = func_demands(alloc, m.funcs.as_slice())?;
    let declared = declaration_demands(alloc, m.symbols.as_slice(), m.declared.as_slice())?;
    Ok(Demands {
        types,
        globals,
        funcs,
        declared,
    })
}

fn type_demands(alloc: Global, defs: &[TypeDef]) -> Result<Items<Demand>, NoMemory>
    ensures { IfOk result (λ ds. ds ≡ map type_demand defs.now) }
{
    let mut demands = Items::new(alloc);
    for d in defs {
        demands.push(type_demand(alloc, d)?)?;
    }
    Ok(demands)
}

fn type_demand(alloc: Global, d: &TypeDef) -> Result<Demand, NoMemory>
    ensures { IfOk result (λ x. x ≡ type_demand d.now) }
{
    let mut sheet = Sheet::new(alloc);
    sheet.type_def(d)?;
    Ok(Demand::of(sheet.as_slice()))
}

fn global_demands(alloc: Global, globals: &[GlobalVar]) -> Result<Items<Demand>, NoMemory>
    ensures { IfOk result (λ ds. ds ≡ map global_demand globals.now) }
{
    let mut demands = Items::new(alloc);
    for g in globals {
        demands.push(global_demand(alloc, g)?)?;
    }
    Ok(demands)
}

fn global_demand(alloc: Global, g: &GlobalVar) -> Result<Demand, NoMemory>
    ensures { IfOk result (λ x. x ≡ global_demand g.now) }
{
    let mut sheet = Sheet::new(alloc);
    sheet.global(g)?;
    Ok(Demand::of(sheet.as_slice()))
}

fn func_demands(alloc: Global, funcs: &[Func]) -> Result<Items<Demand>, NoMemory>
    ensures { IfOk result (λ ds. ds ≡ map func_demand funcs.now) }
{
    let mut demands = Items::new(alloc);
    for f in funcs {
        demands.push(func_demand(alloc, f)?)?;
    }
    Ok(demands)
}

fn func_demand(alloc: Global, f: &Func) -> Result<Demand, NoMemory>
    ensures { IfOk result (λ x. x ≡ func_demand f.now) }
{
    let mut sheet = Sheet::new(alloc);
    sheet.func(f)?;
    Ok(Demand::of(sheet.as_slice()))
}

fn declaration_demands(
    alloc: Global,
    symbols: &[Text],
    declared: &[Declaration],
) -> Result<Items<Demand>, NoMemory>
    ensures { IfOk result (λ ds. ds ≡ map (declaration_demand symbols.now) declared.now) }
{
    let mut demands = Items::new(alloc);
    for d in declared {
        demands.push(declaration_demand(alloc, symbols, d)?)?;
    }
    Ok(demands)
}

fn declaration_demand(alloc: Global, symbols: &[Text], d: &Declaration) -> Result<Demand, NoMemory>
    ensures { IfOk result (λ x. x ≡ declaration_demand symbols.now d.now) }
{
    let mut sheet = Sheet::new(alloc);
    sheet.declaration(name_at(symbols, d.name.0), d)?;
    Ok(Demand::of(sheet.as_slice()))
}
