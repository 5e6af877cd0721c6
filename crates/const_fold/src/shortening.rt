ghost use Rattle.std.specs.Prelude.{◌≡◌};
ghost use Rattle.std.specs.List.{list_any};
ghost use Rattle.const_fold.specs.Shortening.{is_word, moves_nothing, shortens, block_shortens};

use crate::operands::word_in;
use ir_core::{FlatBlock, FlatInstr, Term};
use oi_base::Width;

/// Whether the operand of some term is a word.
fn has_words(terms: &[Term]) -> bool
    ensures { result ≡ list_any is_word terms.now }
{
    for term in terms {
        if word_in(term.width, term.operand).is_some() {
            return true;
        }
    }
    false
}

/// Whether an address moves its base by nothing: it has no terms, and constant part 0.
fn moves_nothing(k: u32, terms: &[Term]) -> bool
    ensures { result ≡ moves_nothing k terms.now }
{
    match terms {
        [] => k == 0,
        _ => false,
    }
}

/// Whether an instruction has a shorter form.
fn shortens(i: &FlatInstr) -> bool
    ensures { result ≡ shortens i.now }
{
    match i {
        FlatInstr::Select(_, c, _, _) => word_in(Width::W1, *c).is_some(),
        FlatInstr::Gep(_, _, k, terms) => {
            has_words(terms.as_slice()) || moves_nothing(*k, terms.as_slice())
        }
        _ => false,
    }
}

fn code_shortens(code: &[FlatInstr]) -> bool
    ensures { result ≡ list_any shortens code.now }
{
    for instr in code {
        if shortens(instr) {
            return true;
        }
    }
    false
}

/// Whether some instruction of some block has a shorter form.
pub fn any_shortens(blocks: &[FlatBlock]) -> bool
    ensures { result ≡ list_any block_shortens blocks.now }
{
    for block in blocks {
        if code_shortens(block.code.as_slice()) {
            return true;
        }
    }
    false
}
