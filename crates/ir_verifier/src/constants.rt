ghost use Rattle.std.specs.Prelude.{◌≡◌, not, None};
ghost use Rattle.std.specs.List.{list_all};
ghost use Rattle.ir_core.specs.Operands.{op_operands};
ghost use Rattle.ir_core.specs.ValidOps.{BreaksConstants};
ghost use Rattle.module_rules.specs.First.{earliest, IsFound};
ghost use Rattle.module_rules.specs.Faults.{block_faults, fits, fits_type, count_fits};
ghost use Rattle.ir_verifier.specs.Faults.{const_fits, value_fits, operand_fits, op_count_fits, op_fits, end_fits, step_fits, constant_faults};

use ir_core::{Block, Const, End, Func, IrType, Op, Operand};
use module_rules::{count_fits, counts_fit, earlier, fits_type};
use oi_base::Place;

#[tactic(auto, using(crate::proofs::ConstantLaws::constants_found))]
/// The first integer constant that does not fit its width, `true` or `false` that is no `i1`, or `null` that is no `ptr`.
pub fn first_break(f: &Func) -> Option<Place>
    ensures found { IsFound (BreaksConstants f.now) result }
{
    first_fault(f)
}

fn first_fault(f: &Func) -> Option<Place>
    ensures { result ≡ earliest None (constant_faults f.now) }
{
    let mut first = None;
    for block in f.blocks.as_slice() {
        first = in_block(first, block);
    }
    first
}

fn in_block(before: Option<Place>, block: &Block) -> Option<Place>
    ensures { result ≡ earliest before (block_faults (λ s. not (step_fits s)) block.now) }
{
    let mut first = before;
    for instr in block.code.as_slice() {
        if !op_fits(&instr.op) {
            first = earlier(first, instr.place);
        }
    }
    if !end_fits(&block.end) {
        first = earlier(first, block.end_place);
    }
    first
}

fn op_fits(op: &Op) -> bool
    ensures { result ≡ op_fits op.now }
{
    op_operands_fit(op) && op_count_fits(op)
}

fn op_count_fits(op: &Op) -> bool
    ensures { result ≡ op_count_fits op.now }
{
    match op {
        Op::Alloca(_, Some(count), _) => count_fits(count),
        _ => true,
    }
}

fn op_operands_fit(op: &Op) -> bool
    ensures { result ≡ list_all operand_fits (op_operands op.now) }
{
    let mut at = 0;
    while let Some(operand) = op.typed_operand(at) {
        if !value_fits(operand.ty, operand.value) {
            return false;
        }
        at += 1;
    }
    true
}

fn end_fits(end: &End) -> bool
    ensures { result ≡ end_fits end.now }
{
    let mut at = 0;
    while let Some(operand) = end.typed_operand(at) {
        if !value_fits(operand.ty, operand.value) {
            return false;
        }
        at += 1;
    }
    true
}

fn value_fits(t: &IrType, value: &Operand) -> bool
    ensures { result ≡ value_fits t.now value.now }
{
    match value {
        Operand::Local(_) => true,
        Operand::Const(constant) => const_fits(t, constant),
    }
}

fn const_fits(t: &IrType, constant: &Const) -> bool
    ensures { result ≡ const_fits t.now constant.now }
{
    match constant {
        Const::Int(number) => fits_type(t, *number),
        Const::Bool(_) => t.is_bit(),
        Const::Null => t.is_pointer(),
        Const::Gep(_, _, indices) => counts_fit(indices.as_slice()),
        _ => true,
    }
}
