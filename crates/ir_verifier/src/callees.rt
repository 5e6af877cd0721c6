ghost use Rattle.std.specs.Prelude.{◌≡◌, map, nat_eq, IfOk, length};
ghost use Rattle.std.specs.List.{list_any};
ghost use Rattle.std.specs.Option.{option_copied};
ghost use Rattle.ir_core.specs.Operands.{symbol_text};
ghost use Rattle.module_rules.specs.Faults.{numbers_of};
ghost use Rattle.ir_verifier.specs.CallFaults.{func_number, declared_number, declared_numbers, callee};

use ir_core::{Declaration, Func, Module, SymId};
use module_rules::Numbers;
use oi_base::NoMemory;
use std::alloc::Global;
use std::marker::Model;

/// The functions of a module by their names. Contracts see it as the module.
#[derive(Drop)]
pub struct Callees<'a> {
    module: &'a Module,
    defined: Numbers,
    declared: Numbers,
}

impl<'a> Model for Callees<'a> {
    ghost use Rattle.std.specs.Prelude.{◌≡◌};
    ghost use Rattle.ir_core.specs.declared.module.Module as modules;
    ghost use Rattle.ir_core.specs.contracts.module.Module as of_module;
    ghost use Rattle.ir_verifier.specs.CallFaults as faults;

    ghost Value = { modules.Module };

    ghost coded = { of_module.the_row.coded };

    ghost view = { λ c. c.module.now };

    ghost invariant = { λ c. (c.defined ≡ faults.func_numbers c.module.now) × (c.declared ≡ faults.declared_numbers c.module.now) };
}

impl<'a> Callees<'a> {
    pub fn of(alloc: Global, m: &'a Module) -> Result<Callees<'a>, NoMemory>
        ensures { IfOk result (λ c. c ≡ m.now) }
    {
        Ok(Callees {
            module: m,
            defined: definition_numbers(alloc, m.funcs.as_slice())?,
            declared: declaration_numbers(alloc, m.declared.as_slice())?,
        })
    }

    /// The function of a name that the module defines.
    pub fn callee(&self, name: SymId) -> Option<&Func>
        ensures { option_copied result ≡ callee self.now name }
    {
        self.module.funcs.get(self.defined.position(name.0)?)
    }

    pub fn is_declared(&self, name: SymId) -> bool
        ensures { result ≡ list_any (nat_eq name.0) (declared_numbers self.now) }
    {
        self.declared.has(name.0)
    }

    /// The bytes of a name.
    pub fn text(&self, name: SymId) -> &[u8]
        ensures { result.now ≡ symbol_text self.now name }
    {
        match self.module.symbols.get(name.0 as usize) {
            Some(text) => text.as_slice(),
            None => &[],
        }
    }
}

fn definition_numbers(alloc: Global, funcs: &[Func]) -> Result<Numbers, NoMemory>
    ensures { IfOk result (λ ns. ns ≡ numbers_of (map func_number funcs.now)) }
{
    let mut numbers = Numbers::new(alloc);
    for func in funcs {
        numbers.add(func.name.0)?;
    }
    Ok(numbers)
}

fn declaration_numbers(alloc: Global, declared: &[Declaration]) -> Result<Numbers, NoMemory>
    ensures { IfOk result (λ ns. ns ≡ numbers_of (map declared_number declared.now)) }
{
    let mut numbers = Numbers::new(alloc);
    for declaration in declared {
        numbers.add(declaration.name.0)?;
    }
    Ok(numbers)
}
