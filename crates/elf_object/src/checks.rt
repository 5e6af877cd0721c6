//! Checks of fields, bytes and gaps: each answers the first of them that is wrong.

ghost use Rattle.std.specs.Prelude.{◌≡◌, ◌+◌, ◌<◌, ◌≤◌, ◌^◌, ◌∷◌, [], length, map};
ghost use Rattle.elf_object.specs.declared.elf32.Field.TheVariants as Field;
ghost use Rattle.elf_object.specs.Checks.{first_failed, byte_at, half_at, word_at, found_at, field_check, field_checks, zero_checks};
ghost use Rattle.elf_object.specs.Elf32.{size_of, span, number_of};

use crate::elf32::Field;
use crate::fault::{ElfFault, ElfField};

/// The number in the two bytes from a place on.
#[tactic(auto, unfolding(crate::specs::Checks::half_at))]
fn half_at(bytes: &[u8], at: usize) -> u16
    requires { at + 2 ≤ length bytes.now }
    ensures { result ≡ half_at bytes.now at }
{
    let (_, rest) = bytes.split_at(at);
    u16::from_le_bytes([rest[0], rest[1]])
}

/// The number in the four bytes from a place on.
#[tactic(auto, unfolding(crate::specs::Checks::word_at))]
pub fn word_at(bytes: &[u8], at: usize) -> u32
    requires { at + 4 ≤ length bytes.now }
    ensures { result ≡ word_at bytes.now at }
{
    let (_, rest) = bytes.split_at(at);
    u32::from_le_bytes([rest[0], rest[1], rest[2], rest[3]])
}

#[tactic(auto, unfolding(crate::specs::Checks::byte_at))]
pub fn byte_at(bytes: &[u8], at: usize) -> u8
    requires { at < length bytes.now }
    ensures { result ≡ byte_at bytes.now at }
{
    bytes[at]
}

fn size_of(field: Field) -> usize
    ensures { result ≡ size_of field }
{
    match field {
        Field::Byte(_) => 1,
        Field::Half(_) => 2,
        Field::Word(_) => 4,
    }
}

fn number_of(field: Field) -> u64
    ensures { result ≡ number_of field }
{
    match field {
        Field::Byte(n) => u64::from(n),
        Field::Half(n) => u64::from(n),
        Field::Word(n) => n,
    }
}

/// The number that stands where this field is wanted.
fn found_at(bytes: &[u8], at: usize, wanted: Field) -> u32
    requires { at + size_of wanted ≤ length bytes.now }
    ensures { result ≡ found_at bytes.now at wanted }
{
    match wanted {
        Field::Byte(_) => u32::from(byte_at(bytes, at)),
        Field::Half(_) => u32::from(half_at(bytes, at)),
        Field::Word(_) => word_at(bytes, at),
    }
}

/// A check that fails with what was found at the offset.
#[tactic(auto, unfolding(crate::specs::Checks::first_failed))]
pub fn check(field: ElfField, offset: usize, found: u32, passes: bool) -> Result<(), ElfFault>
    requires { offset < 2 ^ 32 }
    ensures { result ≡ first_failed (record { field = field; offset = offset; found = found; passes = passes } ∷ []) }
{
    if passes {
        return Ok(());
    }
    Err(ElfFault::Field {
        field,
        offset: offset as u32,
        found,
    })
}

/// At a place this field is wanted.
pub fn check_field(bytes: &[u8], field: ElfField, at: usize, wanted: Field) -> Result<(), ElfFault>
    requires within { at + size_of wanted ≤ length bytes.now }
    requires short { length bytes.now < 2 ^ 32 }
    ensures { result ≡ first_failed (field_check field bytes.now at wanted ∷ []) }
{
    let found = found_at(bytes, at, wanted);
    let passes = u64::from(found) == number_of(wanted);
    check(field, at, found, passes)
}

/// From a place on these fields are wanted, one after the other.
pub fn check_fields(
    bytes: &[u8],
    field: ElfField,
    at: usize,
    wanted: &[Field],
) -> Result<(), ElfFault>
    requires within { at + span wanted.now ≤ length bytes.now }
    requires short { length bytes.now < 2 ^ 32 }
    ensures { result ≡ first_failed (field_checks field bytes.now at wanted.now) }
{
    let mut at = at;
    for one in wanted {
        check_field(bytes, field, at, *one)?;
        at += size_of(*one);
    }
    Ok(())
}

/// From a place on these bytes are wanted.
pub fn check_bytes(bytes: &[u8], field: ElfField, at: usize, wanted: &[u8]) -> Result<(), ElfFault>
    requires within { at + length wanted.now ≤ length bytes.now }
    requires short { length bytes.now < 2 ^ 32 }
    ensures { result ≡ first_failed (field_checks field bytes.now at (map Field.Byte wanted.now)) }
{
    let mut at = at;
    for one in wanted {
        check_field(bytes, field, at, Field::Byte(*one))?;
        at += 1;
    }
    Ok(())
}

/// From a place up to another one zero bytes are wanted.
pub fn check_zeros(bytes: &[u8], from: usize, to: usize) -> Result<(), ElfFault>
    requires order { from ≤ to }
    requires within { to ≤ length bytes.now }
    requires short { length bytes.now < 2 ^ 32 }
    ensures { result ≡ first_failed (zero_checks bytes.now from to) }
{
    for at in from..to {
        check_field(bytes, ElfField::Gap, at, Field::Byte(0))?;
    }
    Ok(())
}
