ghost use Rattle.std.specs.Prelude.{◌≡◌, map};
ghost use Rattle.std.specs.Option.{option_copied};
ghost use Rattle.ir_core.specs.ValidConsts.{number_of, index_of, const_index};
ghost use Rattle.module_rules.specs.Walks.{field_at, next, walks_into, walks};

use ir_core::{Const, IrType, Operand, TypeDefs, TypedCount, TypedOperand};

/// Whether the indices of a `getelementptr` are integers, and those after the first walk into the source type: into an
/// array by any, and into a struct by a constant `i32` that is a field's number.
pub fn walks(defs: &TypeDefs, source: &IrType, indices: &[TypedOperand]) -> bool
    ensures { result ≡ walks defs.now source.now (map index_of indices.now) }
{
    if indices.is_empty() {
        return true;
    }
    indices[0].ty.is_integer() && walks_into(defs, source, &indices[1..])
}

fn walks_into(defs: &TypeDefs, source: &IrType, indices: &[TypedOperand]) -> bool
    ensures { result ≡ walks_into defs.now source.now (map index_of indices.now) }
{
    let mut at = source;
    for index in indices {
        match next(defs, at, &index.ty, number_of(&index.value)) {
            Some(inner) => at = inner,
            None => return false,
        }
    }
    true
}

/// The same of a constant `getelementptr`.
pub fn const_walks(defs: &TypeDefs, source: &IrType, indices: &[TypedCount]) -> bool
    ensures { result ≡ walks defs.now source.now (map const_index indices.now) }
{
    if indices.is_empty() {
        return true;
    }
    indices[0].ty.is_integer() && const_walks_into(defs, source, &indices[1..])
}

fn const_walks_into(defs: &TypeDefs, source: &IrType, indices: &[TypedCount]) -> bool
    ensures { result ≡ walks_into defs.now source.now (map const_index indices.now) }
{
    let mut at = source;
    for index in indices {
        match next_by(defs, at, index) {
            Some(inner) => at = inner,
            None => return false,
        }
    }
    true
}

/// What a constant index leads to.
pub fn next_by<'a>(defs: &'a TypeDefs, t: &'a IrType, index: &TypedCount) -> Option<&'a IrType>
    ensures { option_copied result ≡ next defs.now t.now (const_index index.now) }
{
    next(defs, t, &index.ty, Some(index.count))
}

/// What an index, of this type and number, leads to.
fn next<'a>(
    defs: &'a TypeDefs,
    t: &'a IrType,
    ty: &IrType,
    number: Option<i128>,
) -> Option<&'a IrType>
    ensures { option_copied result ≡ next defs.now t.now (record { ty = ty.now; number = number }) }
{
    if !ty.is_integer() {
        return None;
    }
    match defs.resolved(t) {
        IrType::Array(_, item) => Some(item.get()),
        IrType::Struct(fields) if ty.is_word() => field_at(fields.as_slice(), number),
        _ => None,
    }
}

/// The field of this number.
fn field_at(fields: &[IrType], number: Option<i128>) -> Option<&IrType>
    ensures { option_copied result ≡ field_at fields.now number }
{
    match number {
        Some(k) if 0 <= k && k < fields.len() as i128 => fields.get(k as usize),
        _ => None,
    }
}

/// The number of an operand that is an integer constant.
fn number_of(value: &Operand) -> Option<i128>
    ensures { result ≡ number_of value.now }
{
    match value {
        Operand::Const(Const::Int(number)) => Some(*number),
        _ => None,
    }
}
