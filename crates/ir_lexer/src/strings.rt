ghost use Rattle.std.specs.Prelude.{◌≡◌, ◌<◌, ◌≤◌, length, position, ◌==◌, IfOk, IfSome, IsTrue};
ghost use Rattle.std.specs.Char.{is_ascii_hexdigit, digit_value};
ghost use Rattle.std.specs.Option.{option_map};
ghost use Rattle.ir_lexer.specs.Strings.{escape, first_said, unescaped, string_at, is_name};
ghost use Rattle.ir_lexer.specs.Table.{Gives};

use crate::fault::LexFault;
use oi_base::{NoMemory, Place, Text};
use std::alloc::Global;

/// The value of a hexadecimal digit.
fn hex_value(digit: u8) -> u8
    requires { IsTrue (is_ascii_hexdigit digit) }
    ensures value { result ≡ digit_value digit }
    ensures small { result < 16 }
{
    char::from(digit).to_digit(16).unwrap() as u8
}

/// The byte that an escape says, from what stands after its backslash, and what stands after the escape; `None` where
/// the backslash stands for itself.
fn escape(raw: &[u8]) -> Option<(u8, &[u8])>
    ensures { option_map (λ p. (p.0, p.1.now)) result ≡ escape raw.now }
{
    match raw {
        [b'\\', rest @ ..] => Some((b'\\', rest)),
        [high, low, rest @ ..] if high.is_ascii_hexdigit() && low.is_ascii_hexdigit() => {
            Some((16 * hex_value(*high) + hex_value(*low), rest))
        }
        _ => None,
    }
}

/// The first byte that the inside of a string says, and the rest of the inside.
fn first_said(raw: &[u8]) -> Option<(u8, &[u8])>
    ensures { option_map (λ p. (p.0, p.1.now)) result ≡ first_said raw.now }
{
    match raw {
        [] => None,
        [b'\\', rest @ ..] => Some(escape(rest).unwrap_or((b'\\', rest))),
        [byte, rest @ ..] => Some((*byte, rest)),
    }
}

/// What the bytes between the quotes of a string say.
#[tactic(auto, using(crate::proofs::Unescaped::goes_on, crate::proofs::Unescaped::ends, crate::proofs::Unescaped::shorter))]
fn unescaped(alloc: Global, raw: &[u8]) -> Result<Text, NoMemory>
    ensures { IfOk result (λ said. said ≡ unescaped raw.now) }
{
    let mut said = Text::new(alloc);
    let mut rest = raw;
    while let Some((byte, after)) = first_said(rest) {
        said.push(byte)?;
        rest = after;
    }
    Ok(said)
}

/// The position of the next quote.
fn next_quote(text: &[u8]) -> Option<usize>
    ensures quote { result ≡ position (λ b. b == 34) text.now }
    ensures within { IfSome result (λ n. n < length text.now) }
{
    text.iter().position(|b| *b == b'"')
}

/// The string at the start of a text that begins with a quote: what it says, and how many bytes it takes with its
/// quotes.
pub fn string_at(alloc: Global, text: &[u8], place: Place) -> Result<(Text, usize), LexFault>
    requires { 0 < length text.now }
    ensures string { Gives result (string_at place text.now) }
    ensures within { IfOk result (λ s. s.1 ≤ length text.now) }
{
    let inside = &text[1..];
    let Some(size) = next_quote(inside) else {
        return Err(LexFault::OpenString(place));
    };
    let said = unescaped(alloc, &inside[..size])?;
    Ok((said, size + 2))
}

/// May a name in quotes be this?
#[tactic(auto, unfolding(crate::specs::Strings::is_name))]
pub fn is_name(name: &[u8]) -> bool
    ensures { result ≡ is_name name.now }
{
    !name.is_empty() && !name.contains(&0)
}
