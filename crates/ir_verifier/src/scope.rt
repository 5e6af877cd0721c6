ghost use Rattle.std.specs.Prelude.{◌≡◌, nat_eq, map, IfOk, OnOk};
ghost use Rattle.std.specs.List.{list_any};
ghost use Rattle.ir_core.specs.declared.module.Module as modules;
ghost use Rattle.module_rules.specs.Faults.{with_numbers, numbers_of, global_number, global_numbers};
ghost use Rattle.ir_verifier.specs.Faults.{param_number, label_number, block_results, value_numbers, scope_of, is_known_const, is_known_value, is_known, is_label};

use ir_core::{Block, Const, Func, LocalId, Operand, Param, TypedOperand};
use module_rules::Numbers;
use oi_base::NoMemory;
use std::alloc::Global;
use std::marker::Model;

/// What may be named in a function: its parameters and registers, its labels, and the module's global variables.
#[derive(Drop)]
pub struct Scope<'a> {
    values: Numbers,
    labels: Numbers,
    globals: &'a Numbers,
}

impl<'a> Model for Scope<'a> {
    ghost use Rattle.ir_verifier.specs.Faults as faults;

    ghost Value = { faults.Scope };

    ghost view = { λ s. record { values = s.values; labels = s.labels; globals = s.globals.now } };
}

impl<'a> Scope<'a> {
    pub fn of(alloc: Global, globals: &'a Numbers, f: &Func) -> Result<Scope<'a>, NoMemory>
        ensures { (m : modules.Module) → globals.now ≡ global_numbers m → IfOk result (λ s. s ≡ scope_of m f.now) }
    {
        Ok(Scope {
            values: value_numbers(alloc, f)?,
            labels: label_numbers(alloc, f.blocks.as_slice())?,
            globals,
        })
    }

    pub fn is_known(&self, operand: &TypedOperand) -> bool
        ensures { result ≡ is_known self.now operand.now }
    {
        self.is_known_value(&operand.value)
    }

    pub fn is_known_value(&self, value: &Operand) -> bool
        ensures { result ≡ is_known_value self.now value.now }
    {
        match value {
            Operand::Local(name) => self.values.has(name.0),
            Operand::Const(constant) => self.is_known_const(constant),
        }
    }

    fn is_known_const(&self, constant: &Const) -> bool
        ensures { result ≡ is_known_const self.now constant.now }
    {
        match constant {
            Const::Address(global) | Const::Gep(_, global, _) => self.globals.has(global.0),
            _ => true,
        }
    }

    pub fn is_label(&self, name: LocalId) -> bool
        ensures { result ≡ is_label self.now name }
    {
        self.labels.has(name.0)
    }
}

pub fn label_numbers(alloc: Global, blocks: &[Block]) -> Result<Numbers, NoMemory>
    ensures { IfOk result (λ ns. ns ≡ numbers_of (map label_number blocks.now)) }
{
    let mut numbers = Numbers::new(alloc);
    for block in blocks {
        numbers.add(block.label.0)?;
    }
    Ok(numbers)
}

fn value_numbers(alloc: Global, f: &Func) -> Result<Numbers, NoMemory>
    ensures { IfOk result (λ ns. ns ≡ value_numbers f.now) }
{
    let mut numbers = param_numbers(alloc, f.params.as_slice())?;
    for block in f.blocks.as_slice() {
        add_results(&mut numbers, block)?;
    }
    Ok(numbers)
}

fn param_numbers(alloc: Global, params: &[Param]) -> Result<Numbers, NoMemory>
    ensures { IfOk result (λ ns. ns ≡ numbers_of (map param_number params.now)) }
{
    let mut numbers = Numbers::new(alloc);
    for param in params {
        numbers.add(param.name.0)?;
    }
    Ok(numbers)
}

fn add_results(numbers: &mut Numbers, block: &Block) -> Result<(), NoMemory>
    ensures { OnOk result (numbers.new ≡ with_numbers numbers.old (block_results block.now)) }
{
    for instr in block.code.as_slice() {
        if let Some(name) = instr.result {
            numbers.add(name.0)?;
        }
    }
    Ok(())
}
