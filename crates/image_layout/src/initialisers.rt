ghost use Rattle.std.specs.Prelude.{◌≡◌, ◌≤◌, ◌<◌, ◌-◌, ◌++◌, All, OnOk, length, map, replicate};
ghost use Rattle.std.specs.Int.{next_multiple_of};
ghost use Rattle.std.specs.List.{flat_map};
ghost use Rattle.oi_base.specs.Words.{modulus, word_of};
ghost use Rattle.ir_core.specs.declared.constant.TypedConst as parts;
ghost use Rattle.ir_core.specs.declared.flat.Scalar.{Scalar};
ghost use Rattle.ir_core.specs.declared.limits.TheConstants.{LARGEST};
ghost use Rattle.ir_core.specs.declared.module.Module as modules;
ghost use Rattle.ir_core.specs.Constants.{width_of, scalar_of, global_number as global_position, filled_up, initial_bytes};
ghost use Rattle.ir_core.specs.Formed.{IsAlign};
ghost use Rattle.ir_core.specs.Memory.{At, scalar_size, octets, stored};
ghost use Rattle.ir_core.specs.Sizes.{size};
ghost use Rattle.module_rules.specs.Faults.{global_number};
ghost use Rattle.rv_select.specs.Linked.{Link};
ghost use Rattle.image_layout.specs.Addresses.{link_in};
ghost use Rattle.image_layout.specs.DataBytes.{byte_in};
ghost use Rattle.image_layout.specs.Initialisers.{IsSized, HasBytes, IsPart, fields_from};

use crate::addresses::Addresses;
use ir_core::{Const, IrType, Module, SymId, TypedConst, align_of, size_of};
use ir_verifier::gep_offset;
use module_rules::word_of;
use oi_base::{NoMemory, Width};

/// Appends the bytes of an initialiser with its type.
#[cycle(initialisers)]
pub(crate) fn push_init(
    bytes: &mut Vec<u8>,
    m: &Module,
    addresses: &Addresses,
    init: &Const,
    t: &IrType,
) -> Result<(), NoMemory>
    requires bytes { HasBytes m.now t.now init.now }
    requires names { addresses.now.names ≡ map global_number m.now.globals }
    ensures { OnOk result (bytes.new.items ≡ bytes.old.items ++ map (byte_in (link_in addresses.now)) (initial_bytes m.now t.now init.now)) }
{
    match init {
        Const::Zero | Const::Undef | Const::Poison => push_zeros(bytes, size_in(m, t) as usize),
        Const::Bytes(text) => Ok(bytes.extend_from_slice(text.as_slice())?),
        Const::Int(number) => push_word(bytes, t, number_word(t, *number)),
        Const::Bool(bit) => push_word(bytes, t, *bit as u32),
        Const::Null => push_word(bytes, t, 0),
        Const::Address(name) => push_address(bytes, addresses, *name, 0),
        Const::Gep(source, name, indices) => {
            let offset = gep_offset(m, source, indices.as_slice());
            push_address(bytes, addresses, *name, offset)
        }
        Const::Array(items) => push_elements(bytes, m, addresses, items.as_slice()),
        Const::Struct(fields) => push_struct(bytes, m, addresses, fields.as_slice(), t),
    }
}

/// Appends the bytes of an array's elements.
#[cycle(initialisers)]
fn push_elements(
    bytes: &mut Vec<u8>,
    m: &Module,
    addresses: &Addresses,
    items: &[TypedConst],
) -> Result<(), NoMemory>
    requires items { All (IsPart m.now) items.now }
    requires names { addresses.now.names ≡ map global_number m.now.globals }
    ensures { OnOk result (bytes.new.items ≡ bytes.old.items ++ map (byte_in (link_in addresses.now)) (flat_map (λ (c : parts.TypedConst). initial_bytes m.now c.ty c.value) items.now)) }
{
    for item in items {
        push_init(bytes, m, addresses, &item.value, &item.ty)?;
    }
    Ok(())
}

/// Appends the bytes of a struct: its fields at their offsets, and zeros between and after them.
#[cycle(initialisers)]
fn push_struct(
    bytes: &mut Vec<u8>,
    m: &Module,
    addresses: &Addresses,
    fields: &[TypedConst],
    t: &IrType,
) -> Result<(), NoMemory>
    requires size { IsSized m.now t.now }
    requires fields { All (IsPart m.now) fields.now }
    requires names { addresses.now.names ≡ map global_number m.now.globals }
    ensures { OnOk result (bytes.new.items ≡ bytes.old.items ++ map (byte_in (link_in addresses.now)) (filled_up (size m.now.types.defs t.now) (fields_from m.now 0 fields.now))) }
{
    let start = bytes.len();
    for field in fields {
        push_padding(bytes, start, align_of(m, &field.ty))?;
        push_init(bytes, m, addresses, &field.value, &field.ty)?;
    }
    push_rest(bytes, start, size_in(m, t))
}

/// Appends the bytes of a word that is as large as a scalar of a type, the least byte first.
fn push_word(bytes: &mut Vec<u8>, t: &IrType, word: u32) -> Result<(), NoMemory>
    ensures { (l : Link) → OnOk result (bytes.new.items ≡ bytes.old.items ++ map (byte_in l) (octets (scalar_size (scalar_of t.now)) word)) }
{
    bytes.extend_from_slice(&word.to_le_bytes()[..scalar_size(t)])?;
    Ok(())
}

/// Appends the address so many bytes after a global, the least byte first.
fn push_address(
    bytes: &mut Vec<u8>,
    addresses: &Addresses,
    name: SymId,
    offset: u32,
) -> Result<(), NoMemory>
    ensures { (m : modules.Module) (s : Scalar) → addresses.now.names ≡ map global_number m.globals → OnOk result (bytes.new.items ≡ bytes.old.items ++ map (byte_in (link_in addresses.now)) (stored s (At (global_position m name) offset))) }
{
    let address = addresses.address_of(addresses.number_of(name), offset);
    bytes.extend_from_slice(&address.to_le_bytes())?;
    Ok(())
}

/// Appends zeros up to the next multiple of an alignment, counted from a place in the bytes.
pub(crate) fn push_padding(bytes: &mut Vec<u8>, start: usize, align: u32) -> Result<(), NoMemory>
    requires start { start ≤ length bytes.old.items }
    requires align { IsAlign align }
    ensures { OnOk result (bytes.new.items ≡ bytes.old.items ++ replicate (next_multiple_of (length bytes.old.items - start) align - (length bytes.old.items - start)) 0) }
{
    let at = bytes.len() - start;
    push_zeros(bytes, padding(at, align))
}

/// Appends zeros until so many bytes stand after a place in the bytes.
fn push_rest(bytes: &mut Vec<u8>, start: usize, size: u32) -> Result<(), NoMemory>
    requires start { start ≤ length bytes.old.items }
    requires size { size ≤ LARGEST }
    ensures { OnOk result (bytes.new.items ≡ bytes.old.items ++ replicate (size - (length bytes.old.items - start)) 0) }
{
    let written = bytes.len() - start;
    push_zeros(bytes, (size as usize).saturating_sub(written))
}

/// How many bytes it is from a place to the next multiple of an alignment.
pub(crate) fn padding(at: usize, align: u32) -> usize
    requires { IsAlign align }
    ensures distance { result ≡ next_multiple_of at align - at }
    ensures bound { result < 16 }
{
    let align = align as usize;
    (align - at % align) % align
}

fn push_zeros(bytes: &mut Vec<u8>, count: usize) -> Result<(), NoMemory>
    requires { count ≤ LARGEST }
    ensures { OnOk result (bytes.new.items ≡ bytes.old.items ++ replicate count 0) }
{
    bytes.resize(bytes.len() + count, 0)?;
    Ok(())
}

/// The size of a type in bytes.
pub(crate) fn size_in(m: &Module, t: &IrType) -> u32
    requires { IsSized m.now t.now }
    ensures size { result ≡ size m.now.types.defs t.now }
    ensures bound { result ≤ LARGEST }
{
    size_of(m, t).unwrap_or(0)
}

/// How many bytes a scalar of a type has.
fn scalar_size(t: &IrType) -> usize
    ensures size { result ≡ scalar_size (scalar_of t.now) }
    ensures bound { result ≤ 4 }
{
    match t {
        IrType::Int(Width::W1 | Width::W8) => 1,
        IrType::Int(Width::W16) => 2,
        _ => 4,
    }
}

/// The word of a type's width that is equal to a number modulo two to the width.
fn number_word(t: &IrType, number: i128) -> u32
    ensures { result ≡ word_of (modulus (width_of t.now)) number }
{
    match t {
        IrType::Int(w) => word_of(*w, number),
        _ => word_of(Width::W32, number),
    }
}
