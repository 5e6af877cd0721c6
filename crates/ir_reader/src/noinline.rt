ghost use Rattle.std.specs.Prelude.{◌≡◌, ◌||◌, List, ℕ, map, reverse, IfOk};
ghost use Rattle.std.specs.List.{list_any};
ghost use Rattle.ir_grammar.specs.Sets.{among};
ghost use Rattle.ir_grammar.specs.Entities.{function_of};

use ir_core::{Func, Funcs, Texts};
use ir_grammar::{Definition, Definitions};
use ir_phrases::Table;
use oi_base::{NoMemory, Text};
use std::alloc::Global;

/// Does one of these groups have `noinline`?
fn any_group(noinline: &Table, groups: &[Text]) -> bool
    ensures { result ≡ list_any (λ n. among noinline.now n) groups.now }
{
    groups.iter().any(|name| noinline.has(name.as_slice()))
}

/// The function of a definition, where these groups have the word `noinline`.
fn function_of(noinline: &Table, definition: Definition) -> Func
    ensures { result ≡ function_of noinline.now definition }
{
    let mut func = definition.func;
    func.noinline = func.noinline || any_group(noinline, definition.groups.as_slice());
    func
}

/// The functions of the definitions, the last one first.
fn settled_backwards(
    alloc: Global,
    noinline: &Table,
    definitions: Definitions,
) -> Result<Funcs, NoMemory>
    ensures { IfOk result (λ fs. reverse fs ≡ map (function_of noinline.now) definitions) }
{
    let mut left = definitions;
    let mut funcs = Funcs::new(alloc);
    while let Some(definition) = left.pop() {
        funcs.push(function_of(noinline, definition))?;
    }
    Ok(funcs)
}

/// The functions in the other order.
fn turned(alloc: Global, funcs: Funcs) -> Result<Funcs, NoMemory>
    ensures { IfOk result (λ fs. fs ≡ reverse funcs) }
{
    let mut left = funcs;
    let mut turned = Funcs::new(alloc);
    while let Some(func) = left.pop() {
        turned.push(func)?;
    }
    Ok(turned)
}

/// The functions of the definitions, where these groups have the word `noinline`.
pub fn functions_of(
    alloc: Global,
    noinline: Texts,
    definitions: Definitions,
) -> Result<Funcs, NoMemory>
    ensures { IfOk result (λ fs. fs ≡ map (function_of noinline) definitions) }
{
    let groups = Table::of(alloc, noinline.as_slice())?;
    let backwards = settled_backwards(alloc, &groups, definitions)?;
    turned(alloc, backwards)
}
