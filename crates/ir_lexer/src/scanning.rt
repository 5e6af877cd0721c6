ghost use Rattle.std.specs.Prelude.{◌≡◌, ◌+◌, ◌<◌, ◌≤◌, length, IfOk, IsTrue, IsFalse, MatchBool, []};
ghost use Rattle.std.specs.Str.Parse.{signed_digits_value};
ghost use Rattle.ir_lexer.specs.Alphabet.{is_int, run_of, without_minus};
ghost use Rattle.ir_lexer.specs.Lexing.{is_end};
ghost use Rattle.ir_lexer.specs.Places.{HasRoom};
ghost use Rattle.ir_lexer.specs.Table.{Gives, is_c, int_token, cstring_token, run_token, string_token, name_after, token_at};

use crate::alphabet::{begins_with, is_int, is_run_byte, is_sign, run_of, without_minus};
use crate::fault::LexFault;
use crate::places::next_place;
use crate::strings::{is_name, string_at};
use crate::table::Token;
use oi_base::{NoMemory, Place, Text};
use std::alloc::Global;

/// The most digits of an integer.
const MOST_DIGITS: usize = 30;

fn copy(alloc: Global, bytes: &[u8]) -> Result<Text, NoMemory>
    ensures { IfOk result (λ text. text ≡ bytes.now) }
{
    Ok(Text::from_slice(alloc, bytes)?)
}

/// The number that a run of at most 30 decimal digits writes, with at most one `-` before them.
fn int_value(run: &[u8]) -> i128
    requires int { IsTrue (is_int run.now) }
    requires short { length (without_minus run.now) ≤ 30 }
    ensures { result ≡ signed_digits_value 10 run.now }
{
    std::str::from_utf8(run).unwrap().parse::<i128>().unwrap()
}

/// An integer, from its run.
#[tactic(auto, unfolding(crate::specs::Table::int_token))]
fn int_token(run: &[u8], place: Place) -> Result<(Token, usize), LexFault>
    requires int { IsTrue (is_int run.now) }
    ensures token { result ≡ int_token place run.now }
    ensures size { IfOk result (λ t. IsFalse (is_end t.0) × (t.1 ≡ length run.now)) }
{
    if without_minus(run).len() > MOST_DIGITS {
        return Err(LexFault::LongNumber(place));
    }
    Ok((Token::Int(int_value(run)), run.len()))
}

/// The run `c` and the string directly after it.
#[tactic(auto, unfolding(crate::specs::Table::cstring_token))]
fn cstring_token(alloc: Global, text: &[u8], place: Place) -> Result<(Token, usize), LexFault>
    requires begins { 1 < length text.now }
    requires room { HasRoom place (length text.now) }
    ensures token { Gives result (cstring_token place text.now) }
    ensures within { IfOk result (λ t. t.1 ≤ length text.now) }
    ensures progress { IfOk result (λ t. IsFalse (is_end t.0) × (0 < t.1)) }
{
    let (said, size) = string_at(alloc, &text[1..], next_place(place, b'c'))?;
    Ok((Token::CStr(said), size + 1))
}

/// The token of the run at the start.
#[tactic(auto, unfolding(crate::specs::Table::run_token))]
fn run_token(alloc: Global, text: &[u8], place: Place) -> Result<(Token, usize), LexFault>
    requires run { 0 < length (run_of text.now) }
    requires room { HasRoom place (length text.now) }
    ensures token { Gives result (run_token place text.now) }
    ensures within { IfOk result (λ t. t.1 ≤ length text.now) }
    ensures progress { IfOk result (λ t. IsFalse (is_end t.0) × (0 < t.1)) }
{
    let run = run_of(text);
    let after = &text[run.len()..];
    if begins_with(b':', after) {
        return Ok((Token::Label(copy(alloc, run)?), run.len() + 1));
    }
    if is_c(run) && begins_with(b'"', after) {
        return cstring_token(alloc, text, place);
    }
    if is_int(run) {
        return int_token(run, place);
    }
    Ok((Token::Word(copy(alloc, run)?), run.len()))
}

/// Is this the run `c`?
fn is_c(run: &[u8]) -> bool
    ensures { result ≡ is_c run.now }
{
    match run {
        [b, rest @ ..] => *b == b'c' && rest.is_empty(),
        [] => false,
    }
}

/// The token of the string at the start of a text that begins with a quote.
#[tactic(auto, unfolding(crate::specs::Table::string_token))]
fn string_token(alloc: Global, text: &[u8], place: Place) -> Result<(Token, usize), LexFault>
    requires { 0 < length text.now }
    ensures token { Gives result (string_token place text.now) }
    ensures within { IfOk result (λ t. t.1 ≤ length text.now) }
    ensures progress { IfOk result (λ t. IsFalse (is_end t.0) × (0 < t.1)) }
{
    let (said, size) = string_at(alloc, text, place)?;
    if !begins_with(b':', &text[size..]) {
        return Ok((Token::Str(said), size));
    }
    if !is_name(said.as_slice()) {
        return Err(LexFault::BadByte(place, b'"'));
    }
    Ok((Token::Label(said), size + 1))
}

/// The name directly after the byte `first`, which stands at the place, and how many bytes the two take.
#[tactic(auto, unfolding(crate::specs::Table::name_after))]
fn name_after(
    alloc: Global,
    text: &[u8],
    place: Place,
    first: u8,
) -> Result<(Text, usize), LexFault>
    requires room { HasRoom place (length text.now + 1) }
    ensures name { Gives result (name_after place first text.now) }
    ensures within { IfOk result (λ n. n.1 ≤ length text.now + 1) }
    ensures progress { IfOk result (λ n. 0 < n.1) }
{
    if begins_with(b'"', text) {
        let (said, size) = string_at(alloc, text, next_place(place, first))?;
        if !is_name(said.as_slice()) {
            return Err(LexFault::BadByte(place, first));
        }
        return Ok((said, size + 1));
    }
    let run = run_of(text);
    if run.is_empty() {
        return Err(LexFault::BadByte(place, first));
    }
    Ok((copy(alloc, run)?, run.len() + 1))
}

/// The token at the start of a text that begins with no separator and no comment, and how many bytes it takes. The
/// place is that of the text's first byte.
#[tactic(auto, unfolding(crate::specs::Table::token_at))]
pub fn token_at(alloc: Global, text: &[u8], place: Place) -> Result<(Token, usize), LexFault>
    requires room { HasRoom place (length text.now) }
    ensures token { Gives result (token_at place text.now) }
    ensures within { IfOk result (λ t. t.1 ≤ length text.now) }
    ensures progress { IfOk result (λ t. MatchBool (is_end t.0) (text.now ≡ []) (0 < t.1)) }
{
    let [first, after @ ..] = text else {
        return Ok((Token::End, 0));
    };
    let first = *first;
    if is_run_byte(first) {
        return run_token(alloc, text, place);
    }
    let run = run_of(after);
    match first {
        b'"' => string_token(alloc, text, place),
        b'%' => {
            let (name, size) = name_after(alloc, after, place, first)?;
            Ok((Token::Local(name), size))
        }
        b'@' => {
            let (name, size) = name_after(alloc, after, place, first)?;
            Ok((Token::Global(name), size))
        }
        b'!' if !run.is_empty() => Ok((Token::Meta(copy(alloc, run)?), run.len() + 1)),
        b'#' if !run.is_empty() => Ok((Token::Hash(copy(alloc, run)?), run.len() + 1)),
        _ if is_sign(first) => Ok((Token::Sign(first), 1)),
        _ => Err(LexFault::BadByte(place, first)),
    }
}
