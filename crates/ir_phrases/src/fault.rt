ghost use Rattle.std.specs.Prelude.{◌≡◌};
ghost use Rattle.ir_phrases.specs.declared.fault.ReadFault.TheVariants as faults;

use ir_grammar::Which;
use ir_lexer::LexFault;
use oi_base::{NoMemory, Place};
use thiserror::Error;

/// Why a text is not read. The first fault of the text is given; at one place a lexical fault comes before a limit, and
/// this before a token that is left out, and this before any other token.
#[derive(Clone, Copy, Debug, PartialEq, Eq, Error)]
pub enum ReadFault {
    #[error("a lexical fault")]
    Lexical(LexFault),
    /// The first token with which no accepted text goes on.
    #[error("not in the accepted text")]
    Syntax(Place),
    /// The same, where the token is one of those that this profile leaves out by name.
    #[error("left out of the accepted text")]
    LeftOut(Place),
    #[error("beyond a limit")]
    Limit(Place, Which),
    #[error("out of memory")]
    NoMemory,
}

impl From<NoMemory> for ReadFault {
    ghost from_gives = { λ _ e. e ≡ faults.NoMemory };

    fn from(_error: NoMemory) -> ReadFault {
        ReadFault::NoMemory
    }
}
