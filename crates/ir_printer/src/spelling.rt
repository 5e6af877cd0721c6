ghost use Rattle.std.specs.Prelude.{◌≡◌, ◌++◌, ◌∷◌, [], ◌<◌, flat_map, true, OnOk};
ghost use Rattle.std.specs.List.{list_all};
ghost use Rattle.std.specs.Fmt.{digit_glyph, signed_decimal};
ghost use Rattle.ir_lexer.specs.Alphabet.{is_run_byte};
ghost use Rattle.ir_printer.specs.Layout.{name_at, stands_for_itself, escaped, quoted, is_run, spelled_name, spelled, is_tight, gap_after, mark_text, marks_text};

use crate::marks::Mark;
use oi_base::{NoMemory, Text};
use std::alloc::Global;
use std::marker::Model;

/// The names of a module and of the function that is printed.
#[derive(Drop)]
pub struct Names<'a> {
    pub symbols: &'a [Text],
    pub types: &'a [Text],
    pub locals: &'a [Text],
}

impl<'a> Model for Names<'a> {
    ghost use Rattle.ir_printer.specs.Layout.{Tables, tables};

    ghost Value = { Tables };

    ghost view = { λ n. tables n.symbols.now n.types.now n.locals.now };
}

impl<'a> Names<'a> {
    fn symbol(&self, at: u32) -> &'a [u8]
        ensures { result.now ≡ name_at self.now.symbols at }
    {
        name_at(self.symbols, at)
    }

    fn type_name(&self, at: u32) -> &'a [u8]
        ensures { result.now ≡ name_at self.now.types at }
    {
        name_at(self.types, at)
    }

    fn local(&self, at: u32) -> &'a [u8]
        ensures { result.now ≡ name_at self.now.locals at }
    {
        name_at(self.locals, at)
    }
}

/// The name at a position, or no byte where there is none.
pub fn name_at(names: &[Text], at: u32) -> &[u8]
    ensures { result.now ≡ name_at names.now at }
{
    match names.get(at as usize) {
        Some(name) => name.as_slice(),
        None => &[],
    }
}

pub fn push_byte(text: &mut Vec<u8>, byte: u8) -> Result<(), NoMemory>
    ensures { OnOk result (text.new.items ≡ text.old.items ++ byte ∷ []) }
{
    text.push(byte)?;
    Ok(())
}

pub fn push_bytes(text: &mut Vec<u8>, bytes: &[u8]) -> Result<(), NoMemory>
    ensures { OnOk result (text.new.items ≡ text.old.items ++ bytes.now) }
{
    text.extend_from_slice(bytes)?;
    Ok(())
}

/// Whether a byte may stand in a string as itself: printable ASCII but a quote or a backslash.
fn stands_for_itself(b: u8) -> bool
    ensures { result ≡ stands_for_itself b }
{
    (b >= 32 && b < 127) && (b != b'"' && b != b'\\')
}

/// A hexadecimal digit.
fn hex_digit(digit: u8) -> u8
    requires { digit < 16 }
    ensures { result ≡ digit_glyph true digit }
{
    if digit < 10 { 48 + digit } else { 55 + digit }
}

fn push_escaped(text: &mut Vec<u8>, b: u8) -> Result<(), NoMemory>
    ensures { OnOk result (text.new.items ≡ text.old.items ++ escaped b) }
{
    if stands_for_itself(b) {
        return push_byte(text, b);
    }
    push_byte(text, b'\\')?;
    push_byte(text, hex_digit(b / 16))?;
    push_byte(text, hex_digit(b % 16))
}

fn push_all_escaped(text: &mut Vec<u8>, said: &[u8]) -> Result<(), NoMemory>
    ensures { OnOk result (text.new.items ≡ text.old.items ++ flat_map escaped said.now) }
{
    for b in said {
        push_escaped(text, *b)?;
    }
    Ok(())
}

/// A string that says this.
#[tactic(auto, unfolding(crate::specs::Layout::quoted))]
fn push_quoted(text: &mut Vec<u8>, said: &[u8]) -> Result<(), NoMemory>
    ensures { OnOk result (text.new.items ≡ text.old.items ++ quoted said.now) }
{
    push_byte(text, b'"')?;
    push_all_escaped(text, said)?;
    push_byte(text, b'"')
}

/// Is the byte one of a run: an ASCII letter or digit, or one of `_`, `.`, `$` and `-`?
fn is_run_byte(b: u8) -> bool
    ensures { result ≡ is_run_byte b }
{
    b.is_ascii_alphanumeric() || matches!(b, b'_' | b'.' | b'$' | b'-')
}

/// Whether a name may stand without quotes.
fn is_run(name: &[u8]) -> bool
    ensures { result ≡ is_run name.now }
{
    !name.is_empty() && are_run_bytes(name)
}

fn are_run_bytes(name: &[u8]) -> bool
    ensures { result ≡ list_all is_run_byte name.now }
{
    name.iter().all(|b| is_run_byte(*b))
}

/// A name, in quotes where it needs them.
#[tactic(auto, unfolding(crate::specs::Layout::spelled_name))]
pub fn push_name(text: &mut Vec<u8>, name: &[u8]) -> Result<(), NoMemory>
    ensures { OnOk result (text.new.items ≡ text.old.items ++ spelled_name name.now) }
{
    if is_run(name) {
        push_bytes(text, name)
    } else {
        push_quoted(text, name)
    }
}

/// A name after a sign.
fn push_name_after(text: &mut Vec<u8>, sign: u8, name: &[u8]) -> Result<(), NoMemory>
    ensures { OnOk result (text.new.items ≡ text.old.items ++ sign ∷ spelled_name name.now) }
{
    push_byte(text, sign)?;
    push_name(text, name)
}

fn push_label(text: &mut Vec<u8>, name: &[u8]) -> Result<(), NoMemory>
    ensures { OnOk result (text.new.items ≡ text.old.items ++ (spelled_name name.now ++ 58 ∷ [])) }
{
    push_name(text, name)?;
    push_byte(text, b':')
}

fn push_cstring(text: &mut Vec<u8>, said: &[u8]) -> Result<(), NoMemory>
    ensures { OnOk result (text.new.items ≡ text.old.items ++ 99 ∷ quoted said.now) }
{
    push_byte(text, b'c')?;
    push_quoted(text, said)
}

fn push_int(alloc: Global, text: &mut Vec<u8>, value: i128) -> Result<(), NoMemory>
    ensures { OnOk result (text.new.items ≡ text.old.items ++ signed_decimal value) }
{
    let digits = format!(in alloc; "{value}")?;
    push_bytes(text, digits.as_bytes())
}

/// What a mark writes itself.
fn push_spelled(
    alloc: Global,
    text: &mut Vec<u8>,
    names: &Names<'_>,
    mark: &Mark,
) -> Result<(), NoMemory>
    ensures { OnOk result (text.new.items ≡ text.old.items ++ spelled names.now mark.now) }
{
    match mark {
        Mark::Word(word) => push_bytes(text, word.text().as_bytes()),
        Mark::Int(value) => push_int(alloc, text, *value),
        Mark::Str(said) => push_quoted(text, said.as_slice()),
        Mark::CStr(said) => push_cstring(text, said.as_slice()),
        Mark::Symbol(name) => push_name_after(text, b'@', names.symbol(name.0)),
        Mark::TypeName(name) => push_name_after(text, b'%', names.type_name(name.0)),
        Mark::Local(name) => push_name_after(text, b'%', names.local(name.0)),
        Mark::Label(name) => push_label(text, names.local(name.0)),
        Mark::Spaced(sign) => push_byte(text, sign.byte()),
        Mark::Closing(sign) => push_byte(text, sign.byte()),
        Mark::Opening(sign) => push_byte(text, sign.byte()),
        Mark::Joined(sign) => push_byte(text, sign.byte()),
        Mark::Line => Ok(()),
        Mark::Indented => Ok(()),
    }
}

/// Whether a mark takes no gap before it.
fn is_tight(mark: &Mark) -> bool
    ensures { result ≡ is_tight mark.now }
{
    matches!(
        mark,
        Mark::Closing(_) | Mark::Joined(_) | Mark::Line | Mark::Indented
    )
}

/// What stands between a mark and the next token.
fn gap_after(mark: &Mark) -> &'static [u8]
    ensures { result.now ≡ gap_after mark.now }
{
    match mark {
        Mark::Opening(_) | Mark::Joined(_) => b"",
        Mark::Line => b"\n",
        Mark::Indented => b"\n  ",
        _ => b" ",
    }
}

fn push_mark(
    alloc: Global,
    text: &mut Vec<u8>,
    names: &Names<'_>,
    gap: &[u8],
    mark: &Mark,
) -> Result<(), NoMemory>
    ensures { OnOk result (text.new.items ≡ text.old.items ++ mark_text names.now gap.now mark.now) }
{
    if is_tight(mark) {
        return push_spelled(alloc, text, names, mark);
    }
    push_bytes(text, gap)?;
    push_spelled(alloc, text, names, mark)
}

/// The text of marks.
pub fn push_marks(
    alloc: Global,
    text: &mut Vec<u8>,
    names: &Names<'_>,
    marks: &[Mark],
) -> Result<(), NoMemory>
    ensures { OnOk result (text.new.items ≡ text.old.items ++ marks_text names.now [] marks.now) }
{
    let mut gap: &[u8] = b"";
    for mark in marks {
        push_mark(alloc, text, names, gap, mark)?;
        gap = gap_after(mark);
    }
    Ok(())
}
