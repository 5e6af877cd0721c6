ghost use Rattle.std.specs.Prelude.{◌≡◌, ◌++◌, [], ◌∷◌, IfOk, flat_map, MatchOption, IsTrue, ◌↔◌};
ghost use Rattle.inline_certificate.specs.Text.{func_word, node_line, text_line, version_line, tree_line};
ghost use Rattle.inline_certificate.specs.Certificates.{AreFuncs, IsWord, IsVersion};
ghost use Rattle.inline_certificate.specs.Steps.{ReadsAs, Spells};

use crate::nodes::CertNode;
use crate::words::{after_blank, after_start, inside, number, value};
use decisions::place_of_byte;
use oi_base::{Boxed, FuncId, Items, NoMemory, SiteId};
use std::alloc::Global;

/// The node whose line this is.
pub fn read_node(alloc: Global, line: &[u8]) -> Result<Option<CertNode>, NoMemory>
    ensures { IfOk result (λ found. ReadsAs line.now found) }
{
    let Some((kind, rest)) = inside(line) else {
        return Ok(None);
    };
    match kind {
        b'L' => Ok(leaf(rest)),
        b'B' => Ok(branch(rest)),
        b'S' => split(alloc, rest),
        b'C' => Ok(cut(rest)),
        _ => Ok(None),
    }
}

fn leaf(rest: &[u8]) -> Option<CertNode>
    ensures { ReadsAs (76 ∷ (rest.now ++ 10 ∷ [])) result }
{
    let Some(word) = after_blank(rest) else {
        return None;
    };
    match value(word) {
        Some(v) => Some(CertNode::Leaf(v)),
        None => None,
    }
}

fn branch(rest: &[u8]) -> Option<CertNode>
    ensures { ReadsAs (66 ∷ (rest.now ++ 10 ∷ [])) result }
{
    let Some(word) = after_blank(rest) else {
        return None;
    };
    match number(word) {
        Some(n) => Some(CertNode::Branch(SiteId(n))),
        None => None,
    }
}

fn cut(rest: &[u8]) -> Option<CertNode>
    ensures { ReadsAs (67 ∷ (rest.now ++ 10 ∷ [])) result }
{
    let Some(word) = after_blank(rest) else {
        return None;
    };
    match value(word) {
        Some(v) => Some(CertNode::Cut(v)),
        None => None,
    }
}

fn split(alloc: Global, rest: &[u8]) -> Result<Option<CertNode>, NoMemory>
    ensures { IfOk result (λ found. ReadsAs (83 ∷ (rest.now ++ 10 ∷ [])) found) }
{
    let Some(funcs) = funcs(alloc, rest)? else {
        return Ok(None);
    };
    if funcs.len() < 2 {
        return Ok(None);
    }
    Ok(Some(CertNode::Split(Boxed::new(alloc, funcs)?)))
}

/// The functions whose words these are, each after a blank.
fn funcs(alloc: Global, words: &[u8]) -> Result<Option<Items<FuncId>>, NoMemory>
    ensures { IfOk result (λ found. Spells (λ fs. flat_map func_word fs) AreFuncs words.now found) }
{
    let mut funcs = Vec::new(alloc);
    let mut rest = words;
    while !rest.is_empty() {
        let Some(after) = after_blank(rest) else {
            return Ok(None);
        };
        let (word, more) = after.split_at(place_of_byte(after, b' '));
        let Some(n) = number(word) else {
            return Ok(None);
        };
        funcs.push(FuncId(n))?;
        rest = more;
    }
    Ok(Some(Items::from_vec(funcs)))
}

/// The version that a line states.
pub fn version_of(line: &[u8]) -> Option<u8>
    ensures { Spells version_line IsVersion line.now result }
{
    if line == b"certificate 1\n".as_slice() {
        return Some(1);
    }
    if line == b"certificate 2\n".as_slice() {
        return Some(2);
    }
    None
}

/// The number of bytes of text that a line states.
pub fn stated_text(line: &[u8]) -> Option<u32>
    ensures { Spells text_line IsWord line.now result }
{
    let Some((kind, rest)) = inside(line) else {
        return None;
    };
    if kind != b't' {
        return None;
    }
    let Some(word) = after_start(rest, b"ext ") else {
        return None;
    };
    number(word)
}

/// Whether a line is `tree`.
pub fn is_tree_line(line: &[u8]) -> bool
    ensures { IsTrue result ↔ (line.now ≡ tree_line) }
{
    line == b"tree\n".as_slice()
}
