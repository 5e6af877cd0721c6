//! The symbol table and the strings of a file: the symbols that they say, and whether they say them right.

ghost use Rattle.std.specs.Prelude.{◌≡◌, ◌+◌, ◌-◌, ◌*◌, ◌<◌, ◌≤◌, ◌^◌, ◌++◌, ◌∷◌, [], ◌==◌, Bool, List, length, IfOk};
ghost use Rattle.std.specs.List.{position, position_or_len};
ghost use Rattle.elf_object.specs.Checks.{first_failed, string_at, place_after, symbol_at, symbols_at, entry_checks, name_check, name_checks};

use crate::checks::{byte_at, check, check_fields, word_at};
use crate::entries::{entry, info_of};
use crate::fault::{ElfFault, ElfField};
use crate::symbol::{SymKind, Symbol, Symbols};
use oi_base::{Items, NoMemory, Text};
use std::alloc::Global;

/// The place of the first zero byte.
fn zero_place(bytes: &[u8]) -> Option<usize>
    ensures { result ≡ position (λ b. b == 0) bytes.now }
{
    bytes.iter().position(|byte| *byte == 0)
}

/// The place of the first zero byte, or the length where there is none.
fn zero_or_end(bytes: &[u8]) -> usize
    ensures place { result ≡ position_or_len (λ b. b == 0) bytes.now }
    ensures within { result ≤ length bytes.now }
{
    match zero_place(bytes) {
        Some(place) => place,
        None => bytes.len(),
    }
}

/// The string at a place of the strings: up to the next zero byte, or all where there is none.
#[tactic(auto, unfolding(crate::specs::Checks::string_at))]
fn string_at(table: &[u8], at: usize) -> &[u8]
    requires { at ≤ length table.now }
    ensures string { result.now ≡ string_at table.now at }
    ensures within { at + length result.now ≤ length table.now }
{
    let (_, rest) = table.split_at(at);
    &rest[..zero_or_end(rest)]
}

/// The place after a string's zero byte, or the end of the strings where there is none.
fn place_after(size: usize, at: usize, string: &[u8]) -> usize
    requires { (at ≤ size) × (size < 2 ^ 32) }
    ensures place { result ≡ place_after size at string.now }
    ensures within { result ≤ size }
{
    (at + string.len() + 1).min(size)
}

/// The symbol of the entry at a place of the file.
#[tactic(auto, unfolding(crate::specs::Checks::symbol_at))]
fn symbol_at(
    alloc: Global,
    bytes: &[u8],
    at: usize,
    global: bool,
    name: &[u8],
) -> Result<Symbol, NoMemory>
    requires { at + 16 ≤ length bytes.now }
    ensures { IfOk result (λ s. s ≡ symbol_at bytes.now at global name.now) }
{
    let kind = if byte_at(bytes, at + 12) == info_of(SymKind::Object, global) {
        SymKind::Object
    } else {
        SymKind::Func
    };
    Ok(Symbol {
        name: Text::from_slice(alloc, name)?,
        value: word_at(bytes, at + 4),
        size: word_at(bytes, at + 8),
        kind,
        global,
    })
}

/// The symbols of so many entries, of which so many first ones are local.
pub fn symbols_at(
    alloc: Global,
    bytes: &[u8],
    table: &[u8],
    at: usize,
    locals: u32,
    count: u32,
) -> Result<Symbols, NoMemory>
    requires entries { at + 16 * count ≤ length bytes.now }
    requires short { length bytes.now < 2 ^ 32 }
    requires strings { (1 ≤ length table.now) × (length table.now < 2 ^ 32) }
    ensures { IfOk result (λ symbols. symbols ≡ symbols_at bytes.now table.now at 1 locals count) }
{
    let mut symbols = Items::new(alloc);
    let mut at = at;
    let mut name_at = 1;
    let mut locals = locals;
    for _ in 0..count {
        let name = string_at(table, name_at);
        symbols.push(symbol_at(alloc, bytes, at, locals == 0, name)?)?;
        at += 16;
        name_at = place_after(table.len(), name_at, name);
        locals = locals.saturating_sub(1);
    }
    Ok(symbols)
}

/// The entries of the symbols are wanted from a place of the file on.
pub fn check_entries(
    bytes: &[u8],
    size: usize,
    at: usize,
    symbols: &[Symbol],
) -> Result<(), ElfFault>
    requires entries { at + 16 * length symbols.now ≤ length bytes.now }
    requires short { length bytes.now < 2 ^ 32 }
    requires strings { (1 ≤ size) × (size < 2 ^ 32) }
    ensures { result ≡ first_failed (entry_checks bytes.now size at 1 symbols.now) }
{
    let mut at = at;
    let mut name_at = 1;
    for symbol in symbols {
        let wanted = entry(name_at as u64, symbol).fields();
        check_fields(bytes, ElfField::Symbol, at, &wanted)?;
        at += 16;
        name_at = place_after(size, name_at, symbol.name.as_slice());
    }
    Ok(())
}

/// The name from a place of the strings on has a byte, and a zero byte within the strings after it.
fn check_name(
    bytes: &[u8],
    start: usize,
    size: usize,
    name_at: usize,
    name: &[u8],
) -> Result<(), ElfFault>
    requires part { start + size ≤ length bytes.now }
    requires short { length bytes.now < 2 ^ 32 }
    requires strings { (1 ≤ size) × (name_at ≤ size) }
    ensures { result ≡ first_failed (name_check bytes.now start size name_at name.now ∷ []) }
{
    let ended = name_at + name.len() < size;
    let at = start + if ended { name_at } else { size - 1 };
    let found = u32::from(byte_at(bytes, at));
    check(ElfField::Strings, at, found, !name.is_empty() && ended)
}

/// The names are wanted after each other, and nothing after the last.
pub fn check_strings(
    bytes: &[u8],
    start: usize,
    size: usize,
    symbols: &[Symbol],
) -> Result<(), ElfFault>
    requires part { start + size < length bytes.now }
    requires short { length bytes.now < 2 ^ 32 }
    requires strings { 1 ≤ size }
    ensures { result ≡ first_failed (name_checks bytes.now start size 1 symbols.now) }
{
    let mut name_at = 1;
    for symbol in symbols {
        let name = symbol.name.as_slice();
        check_name(bytes, start, size, name_at, name)?;
        name_at = place_after(size, name_at, name);
    }
    let at = start + name_at;
    let found = u32::from(byte_at(bytes, at));
    check(ElfField::Strings, at, found, name_at == size)
}
