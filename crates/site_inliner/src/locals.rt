ghost use Rattle.std.specs.Prelude.{◌≡◌, ◌<◌, map, length};
ghost use Rattle.ir_core.specs.Instructions.{func_number as function_number};
ghost use Rattle.ir_core.specs.Constants.{global_number as global_position};
ghost use Rattle.ir_core.specs.Operands.{symbol_text};
ghost use Rattle.ir_core.specs.Parts.{is_defined};
ghost use Rattle.ir_core.specs.Plain.{registers};
ghost use Rattle.module_rules.specs.Faults.{global_number};
ghost use Rattle.site_inliner.specs.Parts.{Part, reg_in, block_in, register_numbers, label_number, func_number};

use crate::lookup::number_in;
use ir_core::{Func, LocalId, Module, SymId};
use module_rules::Numbers;
use oi_base::{BlockId, RegId};
use std::marker::Model;

/// A function of a module, with where registers, blocks, global variables and functions stand by their names. Contracts
/// see it as the function and its module.
#[derive(Drop)]
pub struct Locals<'a> {
    source: &'a Module,
    func: &'a Func,
    globals: &'a Numbers,
    funcs: &'a Numbers,
    registers: Numbers,
    labels: Numbers,
}

impl<'a> Model for Locals<'a> {
    ghost use Rattle.std.specs.Prelude.{◌≡◌, ◌<◌, map, length};
    ghost use Rattle.std.specs.Coded.{codes};
    ghost use Rattle.ir_core.specs.contracts.func.Func as of_func;
    ghost use Rattle.ir_core.specs.contracts.module.Module as of_module;
    ghost use Rattle.module_rules.specs.Faults as faults;
    ghost use Rattle.site_inliner.specs.Parts as parts;

    ghost Value = { parts.Part };

    ghost coded = { Prim.hlevel (codes, of_module.the_row.coded, of_func.the_row.coded) };

    ghost view = { λ s. record { source = s.source.now; func = s.func.now } };

    ghost invariant = { λ s. (s.registers ≡ parts.register_numbers s.func.now) × (length s.registers < 4294967296) × (s.labels ≡ map parts.label_number s.func.now.blocks) × (length s.labels < 4294967296) × (s.globals.now ≡ map faults.global_number s.source.now.globals) × (length s.globals.now < 4294967296) × (s.funcs.now ≡ map parts.func_number s.source.now.funcs) × (length s.funcs.now < 4294967296) };
}

impl<'a> Locals<'a> {
    pub fn of(
        source: &'a Module,
        func: &'a Func,
        globals: &'a Numbers,
        funcs: &'a Numbers,
        registers: Numbers,
        labels: Numbers,
    ) -> Locals<'a>
        requires registers { registers ≡ register_numbers func.now }
        requires few_registers { length registers < 4294967296 }
        requires labels { labels ≡ map label_number func.now.blocks }
        requires few_labels { length labels < 4294967296 }
        requires globals { globals.now ≡ map global_number source.now.globals }
        requires few_globals { length globals.now < 4294967296 }
        requires funcs { funcs.now ≡ map func_number source.now.funcs }
        requires few_funcs { length funcs.now < 4294967296 }
        ensures { result ≡ record { source = source.now; func = func.now } }
    {
        Locals {
            source,
            func,
            globals,
            funcs,
            registers,
            labels,
        }
    }

    pub fn source(&self) -> &Module
        ensures { result.now ≡ self.now.source }
    {
        self.source
    }

    pub fn func(&self) -> &Func
        ensures { result.now ≡ self.now.func }
    {
        self.func
    }

    /// How many parameters there are.
    pub fn param_count(&self) -> u32
        ensures { result ≡ length self.now.func.params }
    {
        self.func.params.len() as u32
    }

    /// How many registers there are.
    pub fn register_count(&self) -> u32
        ensures { result ≡ length (registers self.now.func) }
    {
        self.registers.as_slice().len() as u32
    }

    pub fn register(&self, name: LocalId) -> RegId
        ensures { result ≡ reg_in self.now name }
    {
        RegId(number_in(&self.registers, name.0))
    }

    pub fn block(&self, label: LocalId) -> BlockId
        ensures { result ≡ block_in self.now label }
    {
        BlockId(number_in(&self.labels, label.0))
    }

    /// The position of a global variable.
    pub fn global(&self, name: SymId) -> u32
        ensures { result ≡ global_position self.now.source name }
    {
        number_in(self.globals, name.0)
    }

    /// The position of a function that the module defines, or the number of all.
    pub fn callee(&self, name: SymId) -> u32
        ensures { result ≡ function_number self.now.source name }
    {
        number_in(self.funcs, name.0)
    }

    /// Whether the module defines a function.
    pub fn is_defined(&self, name: SymId) -> bool
        ensures { result ≡ is_defined self.now.source name }
    {
        self.funcs.has(name.0)
    }

    /// The bytes of a name after `@`.
    pub fn text(&self, name: SymId) -> &[u8]
        ensures { result.now ≡ symbol_text self.now.source name }
    {
        match self.source.symbols.get(name.0 as usize) {
            Some(text) => text.as_slice(),
            None => &[],
        }
    }
}
