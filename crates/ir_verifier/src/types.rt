ghost use Rattle.std.specs.Prelude.{◌≡◌, not, None, map, IfOk};
ghost use Rattle.ir_core.specs.declared.ty.IrType.{Int, Ptr};
ghost use Rattle.ir_verifier.specs.CallFaults.{same_kind};
ghost use Rattle.std.specs.List.{list_all};
ghost use Rattle.ir_core.specs.Operands.{typed};
ghost use Rattle.ir_core.specs.ValidOps.{BreaksTypes};
ghost use Rattle.module_rules.specs.First.{earliest, IsFound};
ghost use Rattle.module_rules.specs.Faults.{block_faults};
ghost use Rattle.ir_verifier.specs.TypeFaults.{is_result_type, is_good_param, has_good_types, typing_of, const_agrees, value_agrees, operand_agrees, casts, casts_to, op_agrees, end_agrees, step_agrees, type_faults};

use crate::kinds::same_kind;
use crate::registers::Registers;
use ir_core::{
    Block, CastOp, Const, End, Func, IrType, Module, Op, Operand, Pair, Param, SwitchCase,
    TypeDefs, TypedOperand,
};
use module_rules::{const_walks, earlier_if, walks};
use oi_base::{NoMemory, Place, Width};
use std::alloc::Global;
use std::marker::Model;

/// What is known of types in a function: the module's type names, and the parameters and registers.
#[derive(Drop)]
struct Typing<'a> {
    defs: &'a TypeDefs,
    registers: Registers,
}

impl<'a> Model for Typing<'a> {
    ghost use Rattle.std.specs.Coded.{codes};
    ghost use Rattle.ir_core.specs.contracts.ty.TypeDef as of_def;
    ghost use Rattle.ir_verifier.specs.TypeFaults as faults;

    ghost Value = { faults.Typing };

    ghost coded = { Prim.hlevel (codes, of_def.the_row.coded) };

    ghost view = { λ s. record { defs = s.defs.now; registers = s.registers } };
}

/// The first place at which the types of a function do not agree: that of the function, of an instruction or of a
/// terminator.
pub fn first_break(alloc: Global, m: &Module, f: &Func) -> Result<Option<Place>, NoMemory>
    ensures found { IfOk result (IsFound (BreaksTypes m.now f.now)) }
{
    let typing = Typing::of(alloc, m, f)?;
    Ok(first_fault(&typing, f))
}

fn first_fault(typing: &Typing<'_>, f: &Func) -> Option<Place>
    ensures { result ≡ earliest None (type_faults typing.now f.now) }
{
    let mut first = earlier_if(None, !has_good_types(f), f.place);
    for block in f.blocks.as_slice() {
        first = in_block(first, typing, &f.result, block);
    }
    first
}

fn has_good_types(f: &Func) -> bool
    ensures { result ≡ has_good_types f.now }
{
    is_result_type(&f.result) && are_good_params(f.params.as_slice())
}

fn are_good_params(params: &[Param]) -> bool
    ensures { result ≡ list_all is_good_param params.now }
{
    for param in params {
        if !param.ty.is_scalar() {
            return false;
        }
    }
    true
}

fn is_result_type(t: &IrType) -> bool
    ensures { result ≡ is_result_type t.now }
{
    matches!(t, IrType::Void | IrType::Int(_) | IrType::Ptr)
}

fn in_block(
    before: Option<Place>,
    typing: &Typing<'_>,
    result_type: &IrType,
    block: &Block,
) -> Option<Place>
    ensures { result ≡ earliest before (block_faults (λ s. not (step_agrees typing.now result_type.now s)) block.now) }
{
    let mut first = before;
    for instr in block.code.as_slice() {
        first = earlier_if(first, !typing.op_agrees(&instr.op), instr.place);
    }
    earlier_if(
        first,
        !typing.end_agrees(result_type, &block.end),
        block.end_place,
    )
}

impl<'a> Typing<'a> {
    fn of(alloc: Global, m: &'a Module, f: &Func) -> Result<Typing<'a>, NoMemory>
        ensures { IfOk result (λ s. s ≡ typing_of m.now f.now) }
    {
        Ok(Typing {
            defs: &m.types.defs,
            registers: Registers::of(alloc, f)?,
        })
    }

    fn op_agrees(&self, op: &Op) -> bool
        ensures { result ≡ op_agrees self.now op.now }
    {
        match op {
            Op::Bin(_, t, a, b) => self.agrees(t, a) && self.agrees(t, b) && t.is_integer(),
            Op::Icmp(_, t, a, b) => self.agrees(t, a) && self.agrees(t, b) && t.is_scalar(),
            Op::Select(c, a, b) => {
                self.operand_agrees(c)
                    && self.operand_agrees(a)
                    && self.operand_agrees(b)
                    && c.ty.is_bit()
                    && same_kind(&a.ty, &b.ty)
            }
            Op::Cast(cast, a, t) => self.operand_agrees(a) && casts_to(*cast, &a.ty, t),
            Op::Alloca(_, None, _) => true,
            Op::Alloca(_, Some(count), _) => count.ty.is_integer(),
            Op::Load(t, a, _) => self.operand_agrees(a) && t.is_scalar() && a.ty.is_pointer(),
            Op::Store(a, p, _) => {
                self.operand_agrees(a) && self.operand_agrees(p) && p.ty.is_pointer()
            }
            Op::Gep(t, a, indices) => {
                self.operand_agrees(a)
                    && self.all_agree(indices.as_slice())
                    && a.ty.is_pointer()
                    && walks(self.defs, t, indices.as_slice())
            }
            Op::Phi(t, entries) => self.entries_agree(t, entries.as_slice()) && t.is_scalar(),
            Op::Call(t, _, arguments) => self.all_agree(arguments.as_slice()) && is_result_type(t),
        }
    }

    fn end_agrees(&self, result_type: &IrType, end: &End) -> bool
        ensures { result ≡ end_agrees self.now result_type.now end.now }
    {
        match end {
            End::Br(_) | End::Unreachable => true,
            End::Ret(None) => same_kind(result_type, &IrType::Void),
            End::Ret(Some(a)) => self.operand_agrees(a) && same_kind(&a.ty, result_type),
            End::Cond(c, _, _) => self.operand_agrees(c) && c.ty.is_bit(),
            End::Switch(a, _, cases) => {
                self.operand_agrees(a)
                    && self.cases_agree(cases.as_slice())
                    && a.ty.is_integer()
                    && have_type(cases.as_slice(), &a.ty)
            }
        }
    }

    fn all_agree(&self, operands: &[TypedOperand]) -> bool
        ensures { result ≡ list_all (operand_agrees self.now) operands.now }
    {
        for operand in operands {
            if !self.operand_agrees(operand) {
                return false;
            }
        }
        true
    }

    fn entries_agree(&self, t: &IrType, entries: &[Pair]) -> bool
        ensures { result ≡ list_all (operand_agrees self.now) (map (λ e. typed t.now e.value) entries.now) }
    {
        let _type = t;
        for entry in entries {
            if !self.agrees(t, &entry.value) {
                return false;
            }
        }
        true
    }

    fn cases_agree(&self, cases: &[SwitchCase]) -> bool
        ensures { result ≡ list_all (operand_agrees self.now) (map (λ c. c.value) cases.now) }
    {
        for case in cases {
            if !self.operand_agrees(&case.value) {
                return false;
            }
        }
        true
    }

    fn operand_agrees(&self, operand: &TypedOperand) -> bool
        ensures { result ≡ operand_agrees self.now operand.now }
    {
        self.agrees(&operand.ty, &operand.value)
    }

    /// Whether a value may stand with a type; the ranges of numbers, `true`, `false` and `null` have a rule of their own.
    fn agrees(&self, t: &IrType, value: &Operand) -> bool
        ensures { result ≡ operand_agrees self.now (typed t.now value.now) }
    {
        t.is_scalar() && self.value_agrees(t, value)
    }

    fn value_agrees(&self, t: &IrType, value: &Operand) -> bool
        ensures { result ≡ value_agrees self.now t.now value.now }
    {
        match value {
            Operand::Local(name) => self.registers.has_type(*name, t),
            Operand::Const(constant) => self.const_agrees(t, constant),
        }
    }

    fn const_agrees(&self, t: &IrType, constant: &Const) -> bool
        ensures { result ≡ const_agrees self.now t.now constant.now }
    {
        match constant {
            Const::Int(_) => t.is_integer(),
            Const::Address(_) => t.is_pointer(),
            Const::Gep(source, _, indices) => {
                t.is_pointer() && const_walks(self.defs, source, indices.as_slice())
            }
            _ => true,
        }
    }
}

fn have_type(cases: &[SwitchCase], t: &IrType) -> bool
    ensures { result ≡ list_all (λ c. same_kind c.value.ty t.now) cases.now }
{
    for case in cases {
        if !same_kind(&case.value.ty, t) {
            return false;
        }
    }
    true
}

/// Whether a conversion leads from the one type to the other.
fn casts_to(cast: CastOp, from: &IrType, to: &IrType) -> bool
    ensures { result ≡ casts_to cast from.now to.now }
{
    match (from, to) {
        (IrType::Int(v), IrType::Int(w)) => casts(cast, *v, *w),
        _ => false,
    }
}

fn casts(cast: CastOp, from: Width, to: Width) -> bool
    ensures { result ≡ casts cast from to }
{
    match cast {
        CastOp::Zext | CastOp::Sext => from.bits() < to.bits(),
        CastOp::Trunc => to.bits() < from.bits(),
    }
}
