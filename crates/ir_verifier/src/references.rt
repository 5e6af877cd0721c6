ghost use Rattle.std.specs.Prelude.{◌≡◌, not, None, IfOk};
ghost use Rattle.std.specs.List.{list_all};
ghost use Rattle.ir_core.specs.declared.module.Module as modules;
ghost use Rattle.ir_core.specs.Proper.{IsProperFunc};
ghost use Rattle.ir_core.specs.Operands.{op_operands, end_operands};
ghost use Rattle.ir_core.specs.Parts.{op_labels, targets};
ghost use Rattle.ir_core.specs.ValidFunc.{BreaksReferences};
ghost use Rattle.module_rules.specs.First.{earliest, IsFound};
ghost use Rattle.module_rules.specs.Faults.{block_faults, global_numbers};
ghost use Rattle.ir_verifier.specs.Faults.{is_known, is_label, op_is_known, end_is_known, step_is_known, reference_faults};

use crate::scope::Scope;
use ir_core::{Block, End, Func, Op};
use module_rules::{Numbers, earlier_if};
use oi_base::{NoMemory, Place};
use std::alloc::Global;

/// The first value that is no parameter, register or global variable, or label that is no block's.
pub fn first_break(alloc: Global, globals: &Numbers, f: &Func) -> Result<Option<Place>, NoMemory>
    requires proper { IsProperFunc f.now }
    ensures found { (m : modules.Module) → globals.now ≡ global_numbers m → IfOk result (IsFound (BreaksReferences m f.now)) }
{
    let scope = Scope::of(alloc, globals, f)?;
    Ok(first_fault(&scope, f))
}

fn first_fault(scope: &Scope<'_>, f: &Func) -> Option<Place>
    ensures { result ≡ earliest None (reference_faults scope.now f.now) }
{
    let mut first = None;
    for block in f.blocks.as_slice() {
        first = in_block(first, scope, block);
    }
    first
}

fn in_block(before: Option<Place>, scope: &Scope<'_>, block: &Block) -> Option<Place>
    ensures { result ≡ earliest before (block_faults (λ s. not (step_is_known scope.now s)) block.now) }
{
    let mut first = before;
    for instr in block.code.as_slice() {
        first = earlier_if(first, !op_is_known(scope, &instr.op), instr.place);
    }
    earlier_if(first, !end_is_known(scope, &block.end), block.end_place)
}

fn op_is_known(scope: &Scope<'_>, op: &Op) -> bool
    ensures { result ≡ op_is_known scope.now op.now }
{
    op_values_known(scope, op) && op_labels_known(scope, op)
}

fn end_is_known(scope: &Scope<'_>, end: &End) -> bool
    ensures { result ≡ end_is_known scope.now end.now }
{
    end_values_known(scope, end) && successors_known(scope, end)
}

fn op_values_known(scope: &Scope<'_>, op: &Op) -> bool
    ensures { result ≡ list_all (is_known scope.now) (op_operands op.now) }
{
    let mut at = 0;
    while let Some(operand) = op.typed_operand(at) {
        if !scope.is_known_value(operand.value) {
            return false;
        }
        at += 1;
    }
    true
}

fn op_labels_known(scope: &Scope<'_>, op: &Op) -> bool
    ensures { result ≡ list_all (is_label scope.now) (op_labels op.now) }
{
    let mut at = 0;
    while let Some(label) = op.label(at) {
        if !scope.is_label(label) {
            return false;
        }
        at += 1;
    }
    true
}

fn end_values_known(scope: &Scope<'_>, end: &End) -> bool
    ensures { result ≡ list_all (is_known scope.now) (end_operands end.now) }
{
    let mut at = 0;
    while let Some(operand) = end.typed_operand(at) {
        if !scope.is_known_value(operand.value) {
            return false;
        }
        at += 1;
    }
    true
}

fn successors_known(scope: &Scope<'_>, end: &End) -> bool
    ensures { result ≡ list_all (is_label scope.now) (targets end.now) }
{
    let mut at = 0;
    while let Some(label) = end.successor(at) {
        if !scope.is_label(label) {
            return false;
        }
        at += 1;
    }
    true
}
