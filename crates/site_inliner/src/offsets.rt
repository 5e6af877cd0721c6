ghost use Rattle.std.specs.Prelude.{◌≡◌, List, IfSome, map, slice_get, unwrap_or};
ghost use Rattle.ir_core.specs.declared.ty.TypeDef.{TypeDef};
ghost use Rattle.std.specs.Option.{option_copied};
ghost use Rattle.ir_core.specs.declared.ty.IrType.{Void};
ghost use Rattle.ir_core.specs.Sizes.{fields, offset};
ghost use Rattle.oi_base.specs.Words.{modulus, word_of};
ghost use Rattle.ir_core.specs.Constants.{Index, width_of, field_number, into, inside, element, element_of, walk, path, path_bytes, constant_index, over};
ghost use Rattle.site_inliner.specs.Measured.{IsMeasured};
ghost use Rattle.site_inliner.specs.Steps.{path_of, type_of, IsMeasuredStep};

use crate::operands::{width_of, word_of};
use ir_core::{IrType, Module, TypedCount, field_offset};
use module_rules::size_up_to;
use oi_base::sext;

/// Where an index leads in a type: over elements of a size in bytes, or past so many bytes to a field, if there is one.
#[derive(Clone, Copy)]
pub enum Inward<'a> {
    Elements(u32, &'a IrType),
    Field(u32, Option<&'a IrType>),
}

/// Where an index leads that has this number.
pub fn step<'a>(m: &'a Module, at: &'a IrType, number: u32) -> Inward<'a>
    requires measured { IsMeasured m.now.types.defs at.now }
    ensures path { (i : Index) → field_number i.operand ≡ number → path_of result i ≡ into m.now.types.defs at.now (element_of m.now.types.defs at.now) i }
    ensures inside { (i : Index) → field_number i.operand ≡ number → type_of result ≡ inside m.now.types.defs at.now (element_of m.now.types.defs at.now) i }
    ensures measured { IsMeasuredStep m.now.types.defs result }
{
    match element(m.types.defs.resolved(at)) {
        Some(item) => Inward::Elements(size_up_to(m, item), item),
        None => Inward::Field(offset_or_zero(m, at, number), field_at(m, at, number)),
    }
}

/// The type of an array's elements.
fn element(t: &IrType) -> Option<&IrType>
    ensures { option_copied result ≡ element t.now }
{
    match t {
        IrType::Array(_, item) => Some(item.get()),
        _ => None,
    }
}

/// The type of a struct's field.
fn field_at<'a>(m: &'a Module, at: &'a IrType, number: u32) -> Option<&'a IrType>
    ensures { option_copied result ≡ slice_get (fields m.now.types.defs at.now) number }
{
    m.types.defs.fields(at).get(number as usize)
}

/// Where a struct's field stands, or zero where there is none.
fn offset_or_zero(m: &Module, at: &IrType, number: u32) -> u32
    requires measured { IsMeasured m.now.types.defs at.now }
    ensures { result ≡ unwrap_or (offset m.now.types.defs at.now number) 0 }
{
    if (number as usize) < m.types.defs.fields(at).len() {
        field_offset(m, at, number)
    } else {
        0
    }
}

/// How many bytes a constant `getelementptr` adds to an address, modulo two to the 32.
pub fn const_bytes(m: &Module, source: &IrType, indices: &[TypedCount]) -> u32
    requires measured { IsMeasured m.now.types.defs source.now }
    ensures { result ≡ path_bytes (path m.now.types.defs source.now (map constant_index indices.now)) }
{
    match indices {
        [first, rest @ ..] => {
            moves(first, size_up_to(m, source)).wrapping_add(const_walk(m, source, rest))
        }
        [] => 0,
    }
}

/// The same of the indices after the first.
fn const_walk(m: &Module, source: &IrType, indices: &[TypedCount]) -> u32
    requires measured { IsMeasured m.now.types.defs source.now }
    ensures { result ≡ path_bytes (walk m.now.types.defs source.now (map constant_index indices.now)) }
{
    let mut at = source;
    let mut bytes: u32 = 0;
    for index in indices {
        let step = step(m, at, index_word(index));
        bytes = bytes.wrapping_add(step_bytes(step, index));
        match step_inside(step) {
            Some(inner) => at = inner,
            None => return bytes,
        }
    }
    bytes
}

/// How many bytes a step adds with a constant index.
fn step_bytes(step: Inward<'_>, index: &TypedCount) -> u32
    ensures { result ≡ path_bytes (path_of step.entry (constant_index index.now)) }
{
    match step {
        Inward::Elements(stride, _) => moves(index, stride),
        Inward::Field(bytes, _) => bytes,
    }
}

/// The type to which a step leads.
pub fn step_inside(step: Inward<'_>) -> Option<&IrType>
    ensures same { unwrap_or (option_copied result) Void ≡ type_of step.entry }
    ensures measured { (defs : List TypeDef) → IsMeasuredStep defs step.entry → IfSome (option_copied result) (IsMeasured defs) }
{
    match step {
        Inward::Elements(_, item) => Some(item),
        Inward::Field(_, field) => field,
    }
}

/// How many bytes a constant index leads over things of a size.
fn moves(index: &TypedCount, stride: u32) -> u32
    ensures { result ≡ path_bytes (over stride (constant_index index.now)) }
{
    sext(width_of(&index.ty), index_word(index)).wrapping_mul(stride)
}

/// A constant index as a word of its type.
fn index_word(index: &TypedCount) -> u32
    ensures { result ≡ word_of (modulus (width_of index.now.ty)) index.now.count }
{
    word_of(&index.ty, index.count)
}
