ghost use Rattle.std.specs.Prelude.{◌≡◌, ◌<◌, ℕ, List, ◌++◌, [], ◌∷◌, ◌↔◌, IsTrue, length, decimal, codes, MatchOption};
ghost use Rattle.inline_certificate.specs.Text.{value_word};
ghost use Rattle.inline_certificate.specs.Certificates.{IsWord, IsValue};
ghost use Rattle.inline_certificate.specs.Steps.{Spells};
ghost use Rattle.inline_certificate.specs.Parts.{IsPlain, IsAfterBlank, IsInside, IsCutAt};

use decisions::line_end;

/// The number that a word writes in decimal, without leading zeros.
pub fn number(word: &[u8]) -> Option<u32>
    ensures { Spells decimal IsWord word.now result }
{
    if !is_plain(word) {
        return None;
    }
    match str::from_utf8(word) {
        Ok(text) => match text.parse::<u32>() {
            Ok(n) => Some(n),
            Err(_) => None,
        },
        Err(_) => None,
    }
}

/// Whether a word begins neither with a plus nor with a zero that is not its only digit.
fn is_plain(word: &[u8]) -> bool
    ensures { IsTrue result ↔ IsPlain word.now }
{
    match word {
        [b'+', ..] => false,
        [b'0', _, ..] => false,
        _ => true,
    }
}

/// The value that a word writes: a number, or `none`.
pub fn value(word: &[u8]) -> Option<Option<u32>>
    ensures { Spells value_word IsValue word.now result }
{
    if word == b"none".as_slice() {
        return Some(None);
    }
    match number(word) {
        Some(n) => Some(Some(n)),
        None => None,
    }
}

/// What follows a blank.
pub fn after_blank(text: &[u8]) -> Option<&[u8]>
    ensures { MatchOption result (IsAfterBlank text.now → ⊥) (λ rest. text.now ≡ 32 ∷ rest.now) }
{
    match text.split_first() {
        Some((first, rest)) if *first == b' ' => Some(rest),
        _ => None,
    }
}

/// The first byte of a line, and what stands between it and the line feed.
pub fn inside(line: &[u8]) -> Option<(u8, &[u8])>
    ensures { MatchOption result (IsInside line.now → ⊥) (λ p. line.now ≡ p.0 ∷ (p.1.now ++ 10 ∷ [])) }
{
    let (last, front) = line.split_last()?;
    if *last != b'\n' {
        return None;
    }
    let (first, rest) = front.split_first()?;
    Some((*first, rest))
}

/// What follows these bytes.
pub fn after_start<'a>(text: &'a [u8], start: &[u8]) -> Option<&'a [u8]>
    ensures { MatchOption result ((rest : List ℕ) → text.now ≡ start.now ++ rest → ⊥) (λ rest. text.now ≡ start.now ++ rest.now) }
{
    if text.len() < start.len() {
        return None;
    }
    let (front, rest) = text.split_at(start.len());
    if front == start { Some(rest) } else { None }
}

/// The first line, with its line feed where it has one, and what follows it.
pub fn first_line(bytes: &[u8]) -> (&[u8], &[u8])
    requires { 0 < length bytes.now }
    ensures { IsCutAt bytes.now result.0.now result.1.now }
{
    bytes.split_at(line_end(bytes))
}
