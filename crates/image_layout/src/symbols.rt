ghost use Rattle.std.specs.Prelude.{◌≡◌, ◌*◌, ◌≤◌, ◌++◌, All, IfOk, OnOk, not, length};
ghost use Rattle.ir_core.specs.Operands.{symbol_text};
ghost use Rattle.elf_object.specs.declared.symbol.SymKind.TheVariants as kinds;
ghost use Rattle.ir_core.specs.Sizes.{size};
ghost use Rattle.image_layout.specs.Initialisers.{IsSized, IsPlaceable};
ghost use Rattle.image_layout.specs.Symbols.{function_symbols, global_symbols, with_linkage, local_first};
ghost use Rattle.image_layout.specs.Addresses.{link_in};

use crate::addresses::Addresses;
use elf_object::{SymKind, Symbol, Symbols};
use ir_core::{Func, GlobalVar, Module, SymId, size_of};
use oi_base::{FuncId, Items, NoMemory, Text};
use rv_select::Code;
use std::alloc::Global;

fn name_of(alloc: Global, m: &Module, name: SymId) -> Result<Text, NoMemory>
    ensures { IfOk result (λ text. text ≡ symbol_text m.now name) }
{
    match m.symbols.get(name.0 as usize) {
        Some(text) => Ok(Text::from_slice(alloc, text.as_slice())?),
        None => Ok(Text::new(alloc)),
    }
}

/// The symbol of a function with this code.
fn function_symbol(
    alloc: Global,
    m: &Module,
    addresses: &Addresses,
    f: FuncId,
    func: &Func,
    code: &Code,
) -> Result<Symbol, NoMemory>
    ensures { IfOk result (λ s. s ≡ record { name = symbol_text m.now func.now.name; value = (link_in addresses.now).entry f.0; size = 4 * length code.now; kind = kinds.Func; global = not func.now.internal }) }
{
    Ok(Symbol {
        name: name_of(alloc, m, func.name)?,
        value: addresses.entry(f),
        size: 4 * code.len() as u32,
        kind: SymKind::Func,
        global: !func.internal,
    })
}

/// Appends the symbols of the functions that are global, or of those that are local.
fn push_functions(
    alloc: Global,
    symbols: &mut Symbols,
    m: &Module,
    addresses: &Addresses,
    codes: &[(FuncId, Code)],
    global: bool,
) -> Result<(), NoMemory>
    ensures { OnOk result (symbols.new ≡ symbols.old ++ with_linkage global (function_symbols m.now (link_in addresses.now) codes.now)) }
{
    for (f, code) in codes {
        if let Some(func) = m.funcs.get(f.0 as usize) {
            if func.internal != global {
                symbols.push(function_symbol(alloc, m, addresses, *f, func, code)?)?;
            }
        }
    }
    Ok(())
}

/// The symbol of a global.
fn global_symbol(
    alloc: Global,
    m: &Module,
    addresses: &Addresses,
    number: usize,
    global: &GlobalVar,
) -> Result<Symbol, NoMemory>
    requires { IsSized m.now global.now.ty }
    ensures { IfOk result (λ s. s ≡ record { name = symbol_text m.now global.now.name; value = (link_in addresses.now).global_at number; size = size m.now.types.defs global.now.ty; kind = kinds.Object; global = not global.now.internal }) }
{
    Ok(Symbol {
        name: name_of(alloc, m, global.name)?,
        value: addresses.global_at(number),
        size: size_of(m, &global.ty).unwrap_or(0),
        kind: SymKind::Object,
        global: !global.internal,
    })
}

/// Appends the symbols of the globals that are global, or of those that are local.
fn push_globals(
    alloc: Global,
    symbols: &mut Symbols,
    m: &Module,
    addresses: &Addresses,
    global: bool,
) -> Result<(), NoMemory>
    requires globals { All (IsPlaceable m.now) m.now.globals }
    ensures { OnOk result (symbols.new ≡ symbols.old ++ with_linkage global (global_symbols m.now (link_in addresses.now) 0 m.now.globals)) }
{
    for (number, variable) in m.globals.as_slice().iter().enumerate() {
        if variable.internal != global {
            symbols.push(global_symbol(alloc, m, addresses, number, variable)?)?;
        }
    }
    Ok(())
}

/// The symbols, local ones first.
pub fn symbols(
    alloc: Global,
    m: &Module,
    addresses: &Addresses,
    codes: &[(FuncId, Code)],
) -> Result<Symbols, NoMemory>
    requires globals { All (IsPlaceable m.now) m.now.globals }
    ensures { IfOk result (λ ss. ss ≡ local_first (function_symbols m.now (link_in addresses.now) codes.now ++ global_symbols m.now (link_in addresses.now) 0 m.now.globals)) }
{
    let mut symbols = Items::new(alloc);
    push_functions(alloc, &mut symbols, m, addresses, codes, false)?;
    push_globals(alloc, &mut symbols, m, addresses, false)?;
    push_functions(alloc, &mut symbols, m, addresses, codes, true)?;
    push_globals(alloc, &mut symbols, m, addresses, true)?;
    Ok(symbols)
}
