ghost use Rattle.std.specs.Prelude.{◌≡◌, ◌<◌, ◌≤◌, map, Option, Some, Ok, IsErr, length, min, take, slice_get};
ghost use Rattle.std.specs.Int.{next_multiple_of};
ghost use Rattle.std.specs.Option.{option_map};
ghost use Rattle.ir_core.specs.declared.layout.Layout.{Layout};
ghost use Rattle.ir_core.specs.declared.ty.TypeName.{TypeName};
ghost use Rattle.ir_core.specs.Capped.{capped};
ghost use Rattle.ir_core.specs.Sizes.{layout_by, placed, empty, IsLaid, size, align, fields, offset};
ghost use Rattle.ir_core.specs.Known.{known, Knows};

use crate::layout::{Layout, Name, at_most, round_up};
use crate::limits::{LARGEST, TOO_LARGE};
use crate::module::Module;
use crate::ty::{IrType, TypeName};
use thiserror::Error;

/// A type has more than 16,777,216 bytes.
#[derive(Clone, Copy, Debug, PartialEq, Eq, Error)]
#[error("the type is too large")]
pub struct TypeTooLarge;

/// A type's size in bytes, with the padding at its end.
pub fn size_of(m: &Module, t: &IrType) -> Result<u32, TypeTooLarge>
    requires laid { IsLaid m.now.types.defs t.now }
    ensures fits { size m.now.types.defs t.now ≤ LARGEST → result ≡ Ok (size m.now.types.defs t.now) }
    ensures too_large { LARGEST < size m.now.types.defs t.now → IsErr result }
{
    match layout_of(m.types.defs.table(), t) {
        Some(layout) if layout.size <= LARGEST => Ok(layout.size),
        _ => Err(TypeTooLarge),
    }
}

/// A type's alignment in bytes: 1, 2 or 4.
pub fn align_of(m: &Module, t: &IrType) -> u32
    requires laid { IsLaid m.now.types.defs t.now }
    ensures { result ≡ align m.now.types.defs t.now }
{
    match layout_of(m.types.defs.table(), t) {
        Some(layout) => layout.align,
        None => 1,
    }
}

/// How many bytes after a struct's begin its field of this number, from 0, begins.
pub fn field_offset(m: &Module, t: &IrType, index: u32) -> u32
    requires laid { IsLaid m.now.types.defs t.now }
    requires small { size m.now.types.defs t.now ≤ LARGEST }
    requires field { index < length (fields m.now.types.defs t.now) }
    ensures { offset m.now.types.defs t.now index ≡ Some result }
{
    match m.types.defs.resolved(t) {
        IrType::Struct(fields) => {
            offset_of(m.types.defs.table(), fields.as_slice(), index as usize)
        }
        _ => 0,
    }
}

/// Where the field of this number stands, and one more than the limit where it is beyond that.
fn offset_of(table: &[Name], fields: &[IrType], index: usize) -> u32
    requires { index < length fields.now }
    ensures { (names : TypeName → Option Layout) → Knows table.now names → (before field : Layout) (t : IrType) → placed empty (map (layout_by names) (take index fields.now)) ≡ Some before → slice_get fields.now index ≡ Some t → layout_by names t ≡ Some field → result ≡ min (next_multiple_of (capped before).size field.align) TOO_LARGE }
{
    match (
        fields_of(table, &fields[..index]),
        layout_of(table, &fields[index]),
    ) {
        (Some(before), Some(field)) => at_most(round_up(before.size, field.align)),
        _ => 0,
    }
}

/// A type's layout, where the table has those of the type names in it.
#[cycle(layouts)]
pub(crate) fn layout_of(table: &[Name], t: &IrType) -> Option<Layout>
    ensures { (names : TypeName → Option Layout) → Knows table.now names → result ≡ option_map capped (layout_by names t.now) }
{
    match t {
        IrType::Void => None,
        IrType::Int(width) => Some(Layout::of_word(*width)),
        IrType::Ptr => Some(Layout::POINTER),
        IrType::Array(count, item) => Some(layout_of(table, item.get())?.times(*count)),
        IrType::Struct(fields) => Some(fields_of(table, fields.as_slice())?.finished()),
        IrType::Named(name) => found(table, *name),
    }
}

/// What the fields take, one after the other.
#[cycle(layouts)]
fn fields_of(table: &[Name], fields: &[IrType]) -> Option<Layout>
    ensures { (names : TypeName → Option Layout) → Knows table.now names → result ≡ option_map capped (placed empty (map (layout_by names) fields.now)) }
{
    let mut before = Layout::EMPTY;
    for field in fields {
        before = before.then(layout_of(table, field)?);
    }
    Some(before)
}

/// The layout of a type name.
fn found(table: &[Name], name: TypeName) -> Option<Layout>
    ensures { result ≡ known table.now name }
{
    match table.get(name.0 as usize) {
        Some(Name::Laid(_, layout)) => Some(*layout),
        _ => None,
    }
}
