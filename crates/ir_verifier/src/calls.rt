ghost use Rattle.std.specs.Prelude.{◌≡◌, None};
ghost use Rattle.oi_base.specs.declared.ids.Place as places;
ghost use Rattle.ir_core.specs.ValidModule.{BreaksSymbolTwice};
ghost use Rattle.ir_core.specs.ValidOps.{BreaksTypes, BreaksCalls};
ghost use Rattle.module_rules.specs.First.{earliest, IsFound};
ghost use Rattle.ir_verifier.specs.CallFaults.{is_void, is_one_word, is_none, is_putchar, is_getchar, is_exit, fits_external, fits_func, callee, fits_callee, op_calls_well, block_call_faults, call_faults};

use crate::callees::Callees;
use crate::kinds::{same_kind, same_kinds};
use ir_core::{Block, Func, IrType, Op, SymId, TypedOperand};
use module_rules::earlier_if;
use oi_base::Place;

/// The first call that names no function that the module defines, and no declared external, of its types. Its condition
/// is that no symbol of the module is introduced twice, and that the types of the function agree.
pub fn first_break(callees: &Callees<'_>, f: &Func) -> Option<Place>
    requires once { (p : places.Place) → BreaksSymbolTwice callees.now p → ⊥ }
    requires types { (p : places.Place) → BreaksTypes callees.now f.now p → ⊥ }
    ensures found { IsFound (BreaksCalls callees.now f.now) result }
{
    first_fault(callees, f)
}

fn first_fault(callees: &Callees<'_>, f: &Func) -> Option<Place>
    ensures { result ≡ earliest None (call_faults callees.now f.now) }
{
    let mut first = None;
    for block in f.blocks.as_slice() {
        first = in_block(first, callees, block);
    }
    first
}

fn in_block(before: Option<Place>, callees: &Callees<'_>, block: &Block) -> Option<Place>
    ensures { result ≡ earliest before (block_call_faults callees.now block.now) }
{
    let mut first = before;
    for instr in block.code.as_slice() {
        first = earlier_if(first, !calls_well(callees, &instr.op), instr.place);
    }
    first
}

fn calls_well(callees: &Callees<'_>, op: &Op) -> bool
    ensures { result ≡ op_calls_well callees.now op.now }
{
    match op {
        Op::Call(t, name, arguments) => fits_callee(callees, *name, t, arguments.as_slice()),
        _ => true,
    }
}

fn fits_callee(callees: &Callees<'_>, name: SymId, t: &IrType, arguments: &[TypedOperand]) -> bool
    ensures { result ≡ fits_callee callees.now (callee callees.now name) name t.now arguments.now }
{
    match callees.callee(name) {
        Some(func) => fits_func(func, t, arguments),
        None => callees.is_declared(name) && fits_external(callees.text(name), t, arguments),
    }
}

fn fits_func(func: &Func, t: &IrType, arguments: &[TypedOperand]) -> bool
    ensures { result ≡ fits_func func.now t.now arguments.now }
{
    same_kind(&func.result, t) && same_kinds(func.params.as_slice(), arguments)
}

fn fits_external(name: &[u8], t: &IrType, arguments: &[TypedOperand]) -> bool
    ensures { result ≡ fits_external name.now t.now arguments.now }
{
    is_putchar(name, t, arguments) || is_getchar(name, t, arguments) || is_exit(name, t, arguments)
}

fn is_putchar(name: &[u8], t: &IrType, arguments: &[TypedOperand]) -> bool
    ensures { result ≡ is_putchar name.now t.now arguments.now }
{
    name == b"putchar".as_slice() && t.is_word() && is_one_word(arguments)
}

fn is_getchar(name: &[u8], t: &IrType, arguments: &[TypedOperand]) -> bool
    ensures { result ≡ is_getchar name.now t.now arguments.now }
{
    name == b"getchar".as_slice() && t.is_word() && is_none(arguments)
}

fn is_exit(name: &[u8], t: &IrType, arguments: &[TypedOperand]) -> bool
    ensures { result ≡ is_exit name.now t.now arguments.now }
{
    name == b"exit".as_slice() && is_void(t) && is_one_word(arguments)
}

fn is_void(t: &IrType) -> bool
    ensures { result ≡ is_void t.now }
{
    same_kind(t, &IrType::Void)
}

fn is_none(arguments: &[TypedOperand]) -> bool
    ensures { result ≡ is_none arguments.now }
{
    arguments.is_empty()
}

fn is_one_word(arguments: &[TypedOperand]) -> bool
    ensures { result ≡ is_one_word arguments.now }
{
    arguments.len() == 1 && arguments[0].ty.is_word()
}
