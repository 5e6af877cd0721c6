ghost use Rattle.std.specs.Prelude.{◌≡◌, IfOk, OnOk};
ghost use Rattle.std.specs.List.{flat_map};
ghost use Rattle.module_rules.specs.Faults.{with_numbers, numbers_of};
ghost use Rattle.ir_verifier.specs.TypeFaults.{number_if, param_of, makes, result_of, results_of, locals_of, registers_of, has_type};

use crate::kinds::same_kind;
use ir_core::{Block, Func, Instr, IrType, LocalId, Op, Param};
use module_rules::Numbers;
use oi_base::{NoMemory, Width};
use std::alloc::Global;
use std::marker::Model;

/// The parameters and registers of a function by their types. Contracts see the names of each type as a list.
#[derive(Drop)]
pub struct Registers {
    bits: Numbers,
    bytes: Numbers,
    halves: Numbers,
    words: Numbers,
    pointers: Numbers,
}

impl Model for Registers {
    ghost use Rattle.ir_verifier.specs.TypeFaults as faults;

    ghost Value = { faults.Registers };

    ghost view = { λ r. record { bits = r.bits; bytes = r.bytes; halves = r.halves; words = r.words; pointers = r.pointers } };
}

impl Registers {
    pub fn of(alloc: Global, f: &Func) -> Result<Registers, NoMemory>
        ensures { IfOk result (λ r. r ≡ registers_of f.now) }
    {
        Ok(Registers {
            bits: locals_of(alloc, &IrType::Int(Width::W1), f)?,
            bytes: locals_of(alloc, &IrType::Int(Width::W8), f)?,
            halves: locals_of(alloc, &IrType::Int(Width::W16), f)?,
            words: locals_of(alloc, &IrType::Int(Width::W32), f)?,
            pointers: locals_of(alloc, &IrType::Ptr, f)?,
        })
    }

    /// Whether a parameter or register of the name has the type, which is that of a value.
    pub fn has_type(&self, name: LocalId, t: &IrType) -> bool
        ensures { result ≡ has_type self.now name t.now }
    {
        match t {
            IrType::Int(Width::W1) => self.bits.has(name.0),
            IrType::Int(Width::W8) => self.bytes.has(name.0),
            IrType::Int(Width::W16) => self.halves.has(name.0),
            IrType::Int(Width::W32) => self.words.has(name.0),
            IrType::Ptr => self.pointers.has(name.0),
            _ => false,
        }
    }
}

/// The names of the parameters and registers of a type.
fn locals_of(alloc: Global, t: &IrType, f: &Func) -> Result<Numbers, NoMemory>
    ensures { IfOk result (λ ns. ns ≡ locals_of t.now f.now) }
{
    let mut numbers = params_of(alloc, t, f.params.as_slice())?;
    for block in f.blocks.as_slice() {
        add_results(&mut numbers, t, block)?;
    }
    Ok(numbers)
}

fn params_of(alloc: Global, t: &IrType, params: &[Param]) -> Result<Numbers, NoMemory>
    ensures { IfOk result (λ ns. ns ≡ numbers_of (flat_map (param_of t.now) params.now)) }
{
    let mut numbers = Numbers::new(alloc);
    for param in params {
        add_if(&mut numbers, same_kind(&param.ty, t), param.name)?;
    }
    Ok(numbers)
}

fn add_results(numbers: &mut Numbers, t: &IrType, block: &Block) -> Result<(), NoMemory>
    ensures { OnOk result (numbers.new ≡ with_numbers numbers.old (results_of t.now block.now)) }
{
    for instr in block.code.as_slice() {
        add_result(numbers, t, instr)?;
    }
    Ok(())
}

fn add_result(numbers: &mut Numbers, t: &IrType, instr: &Instr) -> Result<(), NoMemory>
    ensures { OnOk result (numbers.new ≡ with_numbers numbers.old (result_of t.now instr.now)) }
{
    match instr.result {
        Some(name) => add_if(numbers, makes(t, &instr.op), name),
        None => Ok(()),
    }
}

fn add_if(numbers: &mut Numbers, counts: bool, name: LocalId) -> Result<(), NoMemory>
    ensures { OnOk result (numbers.new ≡ with_numbers numbers.old (number_if counts name)) }
{
    if counts {
        numbers.add(name.0)?;
    }
    Ok(())
}

/// Whether the result of an instruction has the type.
fn makes(t: &IrType, op: &Op) -> bool
    ensures { result ≡ makes t.now op.now }
{
    match op {
        Op::Bin(_, made, _, _)
        | Op::Cast(_, _, made)
        | Op::Load(made, _, _)
        | Op::Phi(made, _)
        | Op::Call(made, _, _) => same_kind(made, t),
        Op::Icmp(_, _, _, _) => same_kind(&IrType::Int(Width::W1), t),
        Op::Select(_, a, _) => same_kind(&a.ty, t),
        Op::Alloca(_, _, _) | Op::Gep(_, _, _) => same_kind(&IrType::Ptr, t),
        Op::Store(_, _, _) => same_kind(&IrType::Void, t),
    }
}
