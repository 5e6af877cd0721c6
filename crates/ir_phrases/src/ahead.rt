ghost use Rattle.std.specs.Prelude.{◌≡◌, IfOk, IfErr};
ghost use Rattle.ir_grammar.specs.Pieces.{pieces_of};
ghost use Rattle.ir_phrases.specs.Gives.{with_ahead};
ghost use Rattle.ir_phrases.specs.declared.fault.ReadFault.TheVariants as faults;

use crate::fault::ReadFault;
use ir_lexer::{LexFault, Lexer, Spot};
use std::alloc::Global;

/// What stands next in a text.
#[derive(Drop)]
pub enum Ahead {
    Token(Spot),
    Fault(LexFault),
    /// Nothing: the end or a lexical fault was passed.
    Nothing,
}

/// What the lexer gives next.
#[tactic(auto, using(ir_grammar::proofs::Stream::pieces_step))]
pub fn next_ahead(lexer: &mut Lexer<'_>, alloc: Global) -> Result<Ahead, ReadFault>
    ensures ahead { IfOk result (λ a. pieces_of lexer.old ≡ with_ahead a (pieces_of lexer.new)) }
    ensures err { IfErr result (λ e. e ≡ faults.NoMemory) }
{
    match lexer.next(alloc) {
        Ok((token, place)) => Ok(Ahead::Token(Spot { token, place })),
        Err(LexFault::NoMemory) => Err(ReadFault::NoMemory),
        Err(fault) => Ok(Ahead::Fault(fault)),
    }
}
