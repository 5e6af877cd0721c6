ghost use Rattle.std.specs.Prelude.{◌≡◌, ◌+◌, ◌∷◌, [], None, ℕ, map, min, IfOk};
ghost use Rattle.ir_core.specs.declared.limits.TheConstants.{LARGEST};
ghost use Rattle.std.specs.List.{flat_map, list_any, list_all};
ghost use Rattle.oi_base.specs.declared.ids.Place as places;
ghost use Rattle.ir_core.specs.Parts.{names_in_type, values_of, op_values, end_values};
ghost use Rattle.ir_core.specs.ValidTypes.{BreaksTypeNames, BreaksSizes, const_sources, sources_in_values, op_sized};
ghost use Rattle.module_rules.specs.First.{earliest, IsFound};
ghost use Rattle.module_rules.specs.Faults.{block_faults};
ghost use Rattle.module_rules.specs.TypeFaults.{is_laid_name};
ghost use Rattle.module_rules.specs.SizeFaults.{has_above, small_type, small_def, small_defs, is_too_large, typed_const_sources, count_is_above, makes_too_much, op_is_too_large, end_is_too_large, step_is_too_large, global_is_too_large, global_size_fault, func_size_faults, size_faults};

use crate::first::earlier_if;
use crate::measure::{is_above, size_up_to};
use crate::type_parts::names_in;
use ir_core::{
    Block, Const, End, Func, GlobalVar, IrType, LARGEST, Module, Op, Operand, Pair, SwitchCase,
    TypeDef, TypeDefs, TypeName, TypedConst, TypedOperand,
};
use oi_base::{Items, NoMemory, Place};
use std::alloc::Global;

/// The largest size of a type.
const MOST_BYTES: i128 = LARGEST as i128;

/// The first global, alloca or `getelementptr`, a constant one too, of a type that has more than 16,777,216 bytes or in which
/// such a type stands, or alloca of more bytes. Its condition is that the rule of type names is broken nowhere.
pub fn first_break(alloc: Global, m: &Module) -> Result<Option<Place>, NoMemory>
    requires type_names { (p : places.Place) → BreaksTypeNames m.now p → ⊥ }
    ensures found { IfOk result (IsFound (BreaksSizes m.now)) }
{
    first_large(alloc, m)
}

/// The first place at which the test for types that are too large finds one.
fn first_large(alloc: Global, m: &Module) -> Result<Option<Place>, NoMemory>
    ensures { IfOk result (λ first. first ≡ earliest None (size_faults m.now (small_defs m.now.types.defs))) }
{
    let small = TypeDefs::of(alloc, small_defs(alloc, m)?)?;
    Ok(first_fault(m, &small))
}

/// Definitions by which a name has a layout exactly where none of the types to which it leads is too large.
fn small_defs(alloc: Global, m: &Module) -> Result<Items<TypeDef>, NoMemory>
    ensures { IfOk result (λ small. small ≡ small_defs m.now.types.defs) }
{
    let mut small = Items::new(alloc);
    for def in m.types.defs.as_slice() {
        small.push(small_def(alloc, m, def)?)?;
    }
    Ok(small)
}

fn small_def(alloc: Global, m: &Module, def: &TypeDef) -> Result<TypeDef, NoMemory>
    ensures { IfOk result (λ d. d ≡ small_def m.now.types.defs def.now) }
{
    Ok(TypeDef {
        place: def.place,
        name: def.name,
        ty: small_type(alloc, m, &def.ty)?,
    })
}

/// A struct of the names in a type, or `void` where a type in it is too large.
fn small_type(alloc: Global, m: &Module, t: &IrType) -> Result<IrType, NoMemory>
    ensures { IfOk result (λ small. small ≡ small_type m.now.types.defs t.now) }
{
    if has_above(m, t) {
        return Ok(IrType::Void);
    }
    let names = names_in(alloc, t)?;
    Ok(IrType::Struct(named_types(alloc, names.as_slice())?))
}

fn named_types(alloc: Global, names: &[TypeName]) -> Result<Items<IrType>, NoMemory>
    ensures { IfOk result (λ types. types ≡ map (λ x. IrType.Named x) names.now) }
{
    let mut types = Items::new(alloc);
    for name in names {
        types.push(IrType::Named(*name))?;
    }
    Ok(types)
}

/// Whether a type or one that stands in it is too large. What stands for a name is not looked at.
#[cycle(above)]
fn has_above(m: &Module, t: &IrType) -> bool
    ensures { result ≡ has_above m.now.types.defs t.now }
{
    is_above(m, t)
        || match t {
            IrType::Array(_, item) => has_above(m, item.get()),
            IrType::Struct(fields) => any_has_above(m, fields.as_slice()),
            _ => false,
        }
}

#[cycle(above)]
fn any_has_above(m: &Module, types: &[IrType]) -> bool
    ensures { result ≡ list_any (has_above m.now.types.defs) types.now }
{
    for t in types {
        if has_above(m, t) {
            return true;
        }
    }
    false
}

/// Whether each name in a type has a layout.
#[cycle(laid)]
fn names_laid(small: &TypeDefs, t: &IrType) -> bool
    ensures { result ≡ list_all (is_laid_name small.now) (names_in_type t.now) }
{
    match t {
        IrType::Array(_, item) => names_laid(small, item.get()),
        IrType::Struct(fields) => all_names_laid(small, fields.as_slice()),
        IrType::Named(_) => small.has_layout(t),
        _ => true,
    }
}

#[cycle(laid)]
fn all_names_laid(small: &TypeDefs, types: &[IrType]) -> bool
    ensures { result ≡ list_all (is_laid_name small.now) (flat_map names_in_type types.now) }
{
    for t in types {
        if !names_laid(small, t) {
            return false;
        }
    }
    true
}

fn is_too_large(m: &Module, small: &TypeDefs, t: &IrType) -> bool
    ensures { result ≡ is_too_large m.now.types.defs small.now t.now }
{
    has_above(m, t) || !names_laid(small, t)
}

fn first_fault(m: &Module, small: &TypeDefs) -> Option<Place>
    ensures { result ≡ earliest None (size_faults m.now small.now) }
{
    let first = in_globals(None, m, small, m.globals.as_slice());
    in_funcs(first, m, small, m.funcs.as_slice())
}

fn in_globals(
    before: Option<Place>,
    m: &Module,
    small: &TypeDefs,
    globals: &[GlobalVar],
) -> Option<Place>
    ensures { result ≡ earliest before (flat_map (global_size_fault m.now.types.defs small.now) globals.now) }
{
    let mut first = before;
    for global in globals {
        first = earlier_if(first, global_is_too_large(m, small, global), global.place);
    }
    first
}

fn global_is_too_large(m: &Module, small: &TypeDefs, global: &GlobalVar) -> bool
    ensures { result ≡ global_is_too_large m.now.types.defs small.now global.now }
{
    is_too_large(m, small, &global.ty) || const_is_too_large(m, small, &global.init)
}

fn in_funcs(before: Option<Place>, m: &Module, small: &TypeDefs, funcs: &[Func]) -> Option<Place>
    ensures { result ≡ earliest before (flat_map (func_size_faults m.now.types.defs small.now) funcs.now) }
{
    let mut first = before;
    for func in funcs {
        first = in_blocks(first, m, small, func.blocks.as_slice());
    }
    first
}

fn in_blocks(before: Option<Place>, m: &Module, small: &TypeDefs, blocks: &[Block]) -> Option<Place>
    ensures { result ≡ earliest before (flat_map (block_faults (step_is_too_large m.now.types.defs small.now)) blocks.now) }
{
    let mut first = before;
    for block in blocks {
        first = in_block(first, m, small, block);
    }
    first
}

fn in_block(before: Option<Place>, m: &Module, small: &TypeDefs, block: &Block) -> Option<Place>
    ensures { result ≡ earliest before (block_faults (step_is_too_large m.now.types.defs small.now) block.now) }
{
    let mut first = before;
    for instr in block.code.as_slice() {
        first = earlier_if(first, op_is_too_large(m, small, &instr.op), instr.place);
    }
    earlier_if(
        first,
        end_is_too_large(m, small, &block.end),
        block.end_place,
    )
}

fn op_is_too_large(m: &Module, small: &TypeDefs, op: &Op) -> bool
    ensures { result ≡ op_is_too_large m.now.types.defs small.now op.now }
{
    op_type_is_too_large(m, small, op)
        || op_values_are_too_large(m, small, op)
        || makes_too_much(m, op)
}

fn op_type_is_too_large(m: &Module, small: &TypeDefs, op: &Op) -> bool
    ensures { result ≡ list_any (is_too_large m.now.types.defs small.now) (op_sized op.now) }
{
    match op {
        Op::Alloca(t, _, _) | Op::Gep(t, _, _) => is_too_large(m, small, t),
        _ => false,
    }
}

fn makes_too_much(m: &Module, op: &Op) -> bool
    ensures { result ≡ makes_too_much m.now.types.defs op.now }
{
    match op {
        Op::Alloca(t, Some(count), _) => count_is_above(count.count, size_up_to(m, t)),
        _ => false,
    }
}

/// Whether so many of a size, which may stand for a larger one, are too much.
fn count_is_above(count: i128, size: u32) -> bool
    ensures { (of : ℕ) → size ≡ min of (LARGEST + 1) → result ≡ count_is_above count of }
{
    if count <= 0 || size == 0 {
        return false;
    }
    count > MOST_BYTES || count * i128::from(size) > MOST_BYTES
}

fn op_values_are_too_large(m: &Module, small: &TypeDefs, op: &Op) -> bool
    ensures { result ≡ list_any (is_too_large m.now.types.defs small.now) (sources_in_values (op_values op.now)) }
{
    match op {
        Op::Bin(_, _, a, b) | Op::Icmp(_, _, a, b) => {
            value_is_too_large(m, small, a) || value_is_too_large(m, small, b)
        }
        Op::Select(c, a, b) => {
            value_is_too_large(m, small, &c.value)
                || value_is_too_large(m, small, &a.value)
                || value_is_too_large(m, small, &b.value)
        }
        Op::Cast(_, a, _) | Op::Load(_, a, _) => value_is_too_large(m, small, &a.value),
        Op::Alloca(_, _, _) => false,
        Op::Store(a, p, _) => {
            value_is_too_large(m, small, &a.value) || value_is_too_large(m, small, &p.value)
        }
        Op::Gep(_, a, indices) => {
            value_is_too_large(m, small, &a.value)
                || operands_are_too_large(m, small, indices.as_slice())
        }
        Op::Phi(_, entries) => entries_are_too_large(m, small, entries.as_slice()),
        Op::Call(_, _, arguments) => operands_are_too_large(m, small, arguments.as_slice()),
    }
}

fn operands_are_too_large(m: &Module, small: &TypeDefs, operands: &[TypedOperand]) -> bool
    ensures { result ≡ list_any (is_too_large m.now.types.defs small.now) (sources_in_values (values_of operands.now)) }
{
    for operand in operands {
        if value_is_too_large(m, small, &operand.value) {
            return true;
        }
    }
    false
}

fn entries_are_too_large(m: &Module, small: &TypeDefs, entries: &[Pair]) -> bool
    ensures { result ≡ list_any (is_too_large m.now.types.defs small.now) (sources_in_values (map (λ e. e.value) entries.now)) }
{
    for entry in entries {
        if value_is_too_large(m, small, &entry.value) {
            return true;
        }
    }
    false
}

fn end_is_too_large(m: &Module, small: &TypeDefs, end: &End) -> bool
    ensures { result ≡ end_is_too_large m.now.types.defs small.now end.now }
{
    match end {
        End::Ret(None) | End::Br(_) | End::Unreachable => false,
        End::Ret(Some(a)) | End::Cond(a, _, _) => value_is_too_large(m, small, &a.value),
        End::Switch(a, _, cases) => {
            value_is_too_large(m, small, &a.value)
                || cases_are_too_large(m, small, cases.as_slice())
        }
    }
}

fn cases_are_too_large(m: &Module, small: &TypeDefs, cases: &[SwitchCase]) -> bool
    ensures { result ≡ list_any (is_too_large m.now.types.defs small.now) (sources_in_values (map (λ c. c.value.value) cases.now)) }
{
    for case in cases {
        if value_is_too_large(m, small, &case.value.value) {
            return true;
        }
    }
    false
}

fn value_is_too_large(m: &Module, small: &TypeDefs, value: &Operand) -> bool
    ensures { result ≡ list_any (is_too_large m.now.types.defs small.now) (sources_in_values (value.now ∷ [])) }
{
    match value {
        Operand::Local(_) => false,
        Operand::Const(constant) => const_is_too_large(m, small, constant),
    }
}

#[cycle(consts)]
fn const_is_too_large(m: &Module, small: &TypeDefs, constant: &Const) -> bool
    ensures { result ≡ list_any (is_too_large m.now.types.defs small.now) (const_sources constant.now) }
{
    match constant {
        Const::Gep(source, _, _) => is_too_large(m, small, source),
        Const::Array(items) => consts_are_too_large(m, small, items.as_slice()),
        Const::Struct(fields) => consts_are_too_large(m, small, fields.as_slice()),
        _ => false,
    }
}

#[cycle(consts)]
fn consts_are_too_large(m: &Module, small: &TypeDefs, constants: &[TypedConst]) -> bool
    ensures { result ≡ list_any (is_too_large m.now.types.defs small.now) (flat_map typed_const_sources constants.now) }
{
    for constant in constants {
        if const_is_too_large(m, small, &constant.value) {
            return true;
        }
    }
    false
}
