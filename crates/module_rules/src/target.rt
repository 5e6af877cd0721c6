ghost use Rattle.std.specs.Prelude.{◌≡◌};
ghost use Rattle.ir_core.specs.ValidModule.{BreaksTarget};
ghost use Rattle.module_rules.specs.First.{IsFound};
ghost use Rattle.module_rules.specs.Target.{begins_a_part, is_part_here, has_part, is_layout, is_triple, is_good, has_good_target};

use ir_core::Module;
use oi_base::{Place, Text};

/// The text's start, where the datalayout lacks the parts `e` and `p:32:32`, or the triple does not begin with `riscv32`.
pub fn first_break(m: &Module) -> Option<Place>
    ensures found { IsFound (BreaksTarget m.now) result }
{
    if has_good_target(m) {
        return None;
    }
    Some(Place { line: 1, column: 1 })
}

fn has_good_target(m: &Module) -> bool
    ensures { result ≡ has_good_target m.now }
{
    is_good_layout(&m.layout) && is_good_triple(&m.triple)
}

fn is_good_layout(layout: &Option<Text>) -> bool
    ensures { result ≡ is_good is_layout layout.now }
{
    match layout {
        Some(text) => is_layout(text.as_slice()),
        None => true,
    }
}

fn is_good_triple(triple: &Option<Text>) -> bool
    ensures { result ≡ is_good is_triple triple.now }
{
    match triple {
        Some(text) => text.as_slice().starts_with(b"riscv32"),
        None => true,
    }
}

fn is_layout(text: &[u8]) -> bool
    ensures { result ≡ is_layout text.now }
{
    has_part(b"e", text) && has_part(b"p:32:32", text)
}

/// Whether one of a text's parts between signs `-` is this one.
fn has_part(part: &[u8], text: &[u8]) -> bool
    ensures { result ≡ has_part part.now text.now }
{
    let mut rest = text;
    let mut begins = true;
    while let [first, after @ ..] = rest {
        if begins && is_part_here(part, rest) {
            return true;
        }
        begins = *first == b'-';
        rest = after;
    }
    begins && is_part_here(part, rest)
}

fn is_part_here(part: &[u8], text: &[u8]) -> bool
    ensures { result ≡ is_part_here part.now text.now }
{
    text.starts_with(part) && begins_a_part(&text[part.len()..])
}

fn begins_a_part(text: &[u8]) -> bool
    ensures { result ≡ begins_a_part text.now }
{
    match text.first() {
        Some(byte) => *byte == b'-',
        None => true,
    }
}
