ghost use Rattle.std.specs.Prelude.{◌≡◌, length, None, IfOk};
ghost use Rattle.std.specs.List.{list_all};
ghost use Rattle.ir_core.specs.declared.ty.IrType.{out-IrType};
ghost use Rattle.ir_core.specs.ValidConsts.{BreaksInitialisers};
ghost use Rattle.module_rules.specs.First.{earliest, IsFound};
ghost use Rattle.module_rules.specs.Faults.{global_numbers};
ghost use Rattle.module_rules.specs.InitFaults.{is_byte, is_string, is_array_of, is_struct_of, is_among, has_type, is_item, are_fields_of, init_faults};

use crate::first::earlier_if;
use crate::integers::{counts_fit, fits_type};
use crate::numbers::Numbers;
use crate::same_types::same_type;
use crate::variables::global_numbers;
use crate::walk::const_walks;
use ir_core::{Const, IrType, Module, SymId, TypeDefs, TypedConst};
use oi_base::{NoMemory, Place, Width};
use std::alloc::Global;

/// The first global variable whose initialiser does not have its type.
pub fn first_break(alloc: Global, m: &Module) -> Result<Option<Place>, NoMemory>
    ensures found { IfOk result (IsFound (BreaksInitialisers m.now)) }
{
    let names = global_numbers(alloc, m.globals.as_slice())?;
    Ok(first_fault(m, &names))
}

fn first_fault(m: &Module, names: &Numbers) -> Option<Place>
    requires names { names.now ≡ global_numbers m.now }
    ensures { result ≡ earliest None (init_faults m.now) }
{
    let mut first = None;
    for global in m.globals.as_slice() {
        let is_good = has_type(&m.types.defs, names, &global.init, &global.ty);
        first = earlier_if(first, !is_good, global.place);
    }
    first
}

/// Whether a constant has a type. `names` are those of the module's global variables.
#[cycle(initialisers)]
fn has_type(defs: &TypeDefs, names: &Numbers, constant: &Const, t: &IrType) -> bool
    ensures { result ≡ has_type defs.now names.now constant.now t.now }
{
    let plain = defs.resolved(t);
    match constant {
        Const::Undef | Const::Poison | Const::Zero => true,
        Const::Int(number) => fits_type(plain, *number),
        Const::Bool(_) => plain.is_bit(),
        Const::Null => plain.is_pointer(),
        Const::Bytes(text) => is_string(text.len(), plain),
        Const::Address(name) => plain.is_pointer() && is_among(names, *name),
        Const::Gep(source, name, indices) => {
            plain.is_pointer()
                && is_among(names, *name)
                && const_walks(defs, source, indices.as_slice())
                && counts_fit(indices.as_slice())
        }
        Const::Array(items) => is_array_of(defs, names, items.as_slice(), plain),
        Const::Struct(values) => is_struct_of(defs, names, values.as_slice(), plain),
    }
}

/// Whether a type is an array of so many elements as there are constants, and each constant is written with the elements'
/// type, which it has.
#[cycle(initialisers)]
fn is_array_of(defs: &TypeDefs, names: &Numbers, items: &[TypedConst], t: &IrType) -> bool
    ensures { result ≡ is_array_of (length items.now) (λ u. list_all (is_item defs.now names.now u) items.now) (out-IrType t.now) }
{
    match t {
        IrType::Array(length, item) => {
            *length as usize == items.len() && are_items(defs, names, items, item.get())
        }
        _ => false,
    }
}

/// Whether a type is a struct, and there are as many constants as fields, each written with its field's type, which it has.
#[cycle(initialisers)]
fn is_struct_of(defs: &TypeDefs, names: &Numbers, values: &[TypedConst], t: &IrType) -> bool
    ensures { result ≡ is_struct_of (are_fields_of defs.now names.now values.now) (out-IrType t.now) }
{
    match t {
        IrType::Struct(types) => are_fields(defs, names, values, types.as_slice()),
        _ => false,
    }
}

/// Whether each constant is written with a type, which it has.
#[cycle(initialisers)]
fn are_items(defs: &TypeDefs, names: &Numbers, items: &[TypedConst], wanted: &IrType) -> bool
    ensures { result ≡ list_all (is_item defs.now names.now wanted.now) items.now }
{
    for item in items {
        if !is_item(defs, names, item, wanted) {
            return false;
        }
    }
    true
}

/// Whether there are as many constants as types, and each is written with its own, which it has.
#[cycle(initialisers)]
#[tactic(auto, using(crate::proofs::InitLevels::not_as_many))]
fn are_fields(defs: &TypeDefs, names: &Numbers, values: &[TypedConst], types: &[IrType]) -> bool
    ensures { result ≡ are_fields_of defs.now names.now values.now types.now }
{
    if values.len() != types.len() {
        return false;
    }
    for k in 0..values.len() {
        if !is_item(defs, names, &values[k], &types[k]) {
            return false;
        }
    }
    true
}

/// Whether a constant is written with a type, which it has.
#[cycle(initialisers)]
fn is_item(defs: &TypeDefs, names: &Numbers, item: &TypedConst, wanted: &IrType) -> bool
    ensures { result ≡ is_item defs.now names.now wanted.now item.now }
{
    same_type(&item.ty, wanted) && has_type(defs, names, &item.value, &item.ty)
}

fn is_among(names: &Numbers, name: SymId) -> bool
    ensures { result ≡ is_among names.now name }
{
    names.has(name.0)
}

/// Whether a type is an array of so many `i8`.
fn is_string(len: usize, t: &IrType) -> bool
    ensures { result ≡ is_string len (out-IrType t.now) }
{
    match t {
        IrType::Array(length, item) => *length as usize == len && is_byte(item.get()),
        _ => false,
    }
}

fn is_byte(t: &IrType) -> bool
    ensures { result ≡ is_byte t.now }
{
    matches!(t, IrType::Int(Width::W8))
}
