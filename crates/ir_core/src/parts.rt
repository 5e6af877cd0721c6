ghost use Rattle.std.specs.Prelude.{◌≡◌, ◌<◌, ◌∷◌, [], OnSome, map, slice_get};
ghost use Rattle.std.specs.Option.{option_copied, option_map};
ghost use Rattle.ir_core.specs.Parts.{op_values, op_labels, end_values, targets, values_of};
ghost use Rattle.ir_core.specs.Operands.{op_operands, end_operands, typed, seen};
ghost use Rattle.ir_core.specs.ValidOps.{op_result, type_of};
ghost use Rattle.ir_core.specs.declared.op.SwitchCase as case_of;
ghost use Rattle.ir_core.specs.declared.op.Pair as pair_of;

use crate::nth::{of_one, of_three, of_two};
use crate::op::{End, LocalId, Op, Operand, Pair, SwitchCase, TypedOperand};
use crate::ty::IrType;

/// An operand with its type.
#[derive(Clone, Copy)]
pub struct TypedRef<'a> {
    pub ty: &'a IrType,
    pub value: &'a Operand,
}

/// The type of an instruction's result: one that the instruction states, or that of its operation.
#[derive(Clone, Copy)]
pub enum ResultType<'a> {
    Stated(&'a IrType),
    Bit,
    Pointer,
    Void,
}

impl TypedOperand {
    pub fn by_parts(&self) -> TypedRef<'_>
        ensures { seen result ≡ self.now }
    {
        TypedRef {
            ty: &self.ty,
            value: &self.value,
        }
    }
}

impl Op {
    /// The operand at a position, in the order in which they are written.
    pub fn operand(&self, at: usize) -> Option<&Operand>
        ensures value { option_copied result ≡ slice_get (op_values self.now) at }
        ensures countable { OnSome result (at < usize.MAX) }
    {
        match self {
            Op::Bin(_, _, a, b) | Op::Icmp(_, _, a, b) => of_two(at, a, b),
            Op::Select(c, a, b) => of_three(at, &c.value, &a.value, &b.value),
            Op::Cast(_, a, _) | Op::Load(_, a, _) => of_one(at, &a.value),
            Op::Alloca(_, _, _) => None,
            Op::Store(a, p, _) => of_two(at, &a.value, &p.value),
            Op::Gep(_, a, _) if at == 0 => Some(&a.value),
            Op::Gep(_, _, indices) => value_at(indices.as_slice(), at - 1),
            Op::Phi(_, entries) => entry_at(entries.as_slice(), at),
            Op::Call(_, _, args) => value_at(args.as_slice(), at),
        }
    }

    /// The same with its type.
    pub fn typed_operand(&self, at: usize) -> Option<TypedRef<'_>>
        ensures value { option_map seen result ≡ slice_get (op_operands self.now) at }
        ensures countable { OnSome result (at < usize.MAX) }
    {
        match self {
            Op::Bin(_, t, a, b) | Op::Icmp(_, t, a, b) => with_type(t, of_two(at, a, b)),
            Op::Select(c, a, b) => typed(of_three(at, c, a, b)),
            Op::Cast(_, a, _) | Op::Load(_, a, _) => typed(of_one(at, a)),
            Op::Alloca(_, _, _) => None,
            Op::Store(a, p, _) => typed(of_two(at, a, p)),
            Op::Gep(_, a, _) if at == 0 => typed(Some(a)),
            Op::Gep(_, _, indices) => operand_at(indices.as_slice(), at - 1),
            Op::Phi(t, entries) => typed_entry_at(t, entries.as_slice(), at),
            Op::Call(_, _, args) => operand_at(args.as_slice(), at),
        }
    }

    /// The block of a phi's entry at a position.
    pub fn label(&self, at: usize) -> Option<LocalId>
        ensures value { result ≡ slice_get (op_labels self.now) at }
        ensures countable { OnSome result (at < usize.MAX) }
    {
        match self {
            Op::Phi(_, entries) => match entries.as_slice().get(at) {
                Some(entry) => Some(entry.from),
                None => None,
            },
            _ => None,
        }
    }

    /// The type of its result; `void` where it has none.
    pub fn result_type(&self) -> ResultType<'_>
        ensures { type_of result ≡ op_result self.now }
    {
        match self {
            Op::Bin(_, t, _, _)
            | Op::Cast(_, _, t)
            | Op::Load(t, _, _)
            | Op::Phi(t, _)
            | Op::Call(t, _, _) => ResultType::Stated(t),
            Op::Icmp(_, _, _, _) => ResultType::Bit,
            Op::Select(_, a, _) => ResultType::Stated(&a.ty),
            Op::Alloca(_, _, _) | Op::Gep(_, _, _) => ResultType::Pointer,
            Op::Store(_, _, _) => ResultType::Void,
        }
    }
}

impl End {
    /// The operand at a position: the value, then those of the cases.
    pub fn operand(&self, at: usize) -> Option<&Operand>
        ensures value { option_copied result ≡ slice_get (end_values self.now) at }
        ensures countable { OnSome result (at < usize.MAX) }
    {
        match self {
            End::Ret(None) | End::Br(_) | End::Unreachable => None,
            End::Ret(Some(a)) | End::Cond(a, _, _) => of_one(at, &a.value),
            End::Switch(a, _, _) if at == 0 => Some(&a.value),
            End::Switch(_, _, cases) => case_at(cases.as_slice(), at - 1),
        }
    }

    /// The same with its type.
    pub fn typed_operand(&self, at: usize) -> Option<TypedRef<'_>>
        ensures value { option_map seen result ≡ slice_get (end_operands self.now) at }
        ensures countable { OnSome result (at < usize.MAX) }
    {
        match self {
            End::Ret(None) | End::Br(_) | End::Unreachable => None,
            End::Ret(Some(a)) | End::Cond(a, _, _) => typed(of_one(at, a)),
            End::Switch(a, _, _) if at == 0 => typed(Some(a)),
            End::Switch(_, _, cases) => typed_case_at(cases.as_slice(), at - 1),
        }
    }

    /// The successor at a position: of a `switch` the default, then those of the cases.
    pub fn successor(&self, at: usize) -> Option<LocalId>
        ensures value { result ≡ slice_get (targets self.now) at }
        ensures countable { OnSome result (at < usize.MAX) }
    {
        match self {
            End::Ret(_) | End::Unreachable => None,
            End::Br(to) => of_one(at, to).copied(),
            End::Cond(_, then, other) => of_two(at, then, other).copied(),
            End::Switch(_, other, _) if at == 0 => Some(*other),
            End::Switch(_, _, cases) => target_at(cases.as_slice(), at - 1),
        }
    }
}

fn value_at(operands: &[TypedOperand], at: usize) -> Option<&Operand>
    ensures { option_copied result ≡ slice_get (values_of operands.now) at }
{
    match operands.get(at) {
        Some(operand) => Some(&operand.value),
        None => None,
    }
}

fn entry_at(entries: &[Pair], at: usize) -> Option<&Operand>
    ensures { option_copied result ≡ slice_get (map (λ (e : pair_of.Pair). e.value) entries.now) at }
{
    match entries.get(at) {
        Some(entry) => Some(&entry.value),
        None => None,
    }
}

fn case_at(cases: &[SwitchCase], at: usize) -> Option<&Operand>
    ensures { option_copied result ≡ slice_get (map (λ (c : case_of.SwitchCase). c.value.value) cases.now) at }
{
    match cases.get(at) {
        Some(case) => Some(&case.value.value),
        None => None,
    }
}

fn target_at(cases: &[SwitchCase], at: usize) -> Option<LocalId>
    ensures { result ≡ slice_get (map (λ (c : case_of.SwitchCase). c.to) cases.now) at }
{
    match cases.get(at) {
        Some(case) => Some(case.to),
        None => None,
    }
}

fn operand_at(operands: &[TypedOperand], at: usize) -> Option<TypedRef<'_>>
    ensures value { option_map seen result ≡ slice_get operands.now at }
    ensures countable { OnSome result (at < usize.MAX) }
{
    match operands.get(at) {
        Some(operand) => Some(operand.by_parts()),
        None => None,
    }
}

fn typed_entry_at<'a>(ty: &'a IrType, entries: &'a [Pair], at: usize) -> Option<TypedRef<'a>>
    ensures value { option_map seen result ≡ slice_get (map (λ (e : pair_of.Pair). typed ty.now e.value) entries.now) at }
    ensures countable { OnSome result (at < usize.MAX) }
{
    match entries.get(at) {
        Some(entry) => Some(TypedRef {
            ty,
            value: &entry.value,
        }),
        None => None,
    }
}

fn typed_case_at(cases: &[SwitchCase], at: usize) -> Option<TypedRef<'_>>
    ensures value { option_map seen result ≡ slice_get (map (λ (c : case_of.SwitchCase). c.value) cases.now) at }
    ensures countable { OnSome result (at < usize.MAX) }
{
    match cases.get(at) {
        Some(case) => Some(case.value.by_parts()),
        None => None,
    }
}

fn typed(operand: Option<&TypedOperand>) -> Option<TypedRef<'_>>
    ensures { option_map seen result ≡ option_copied operand.entry }
{
    match operand {
        Some(operand) => Some(operand.by_parts()),
        None => None,
    }
}

fn with_type<'a>(ty: &'a IrType, value: Option<&'a Operand>) -> Option<TypedRef<'a>>
    ensures { option_map seen result ≡ option_map (typed ty.now) (option_copied value.entry) }
{
    match value {
        Some(value) => Some(TypedRef { ty, value }),
        None => None,
    }
}
