ghost use Rattle.std.specs.Prelude.{◌≡◌};
ghost use Rattle.ir_lexer.specs.declared.fault.LexFault.TheVariants.{NoMemory};

use oi_base::Place;
use thiserror::Error;

/// Why a text has no next token.
#[derive(Clone, Copy, Debug, PartialEq, Eq, Error)]
pub enum LexFault {
    /// A byte that begins no token, and its place. A `%` or `@` with neither a run nor a `"` directly after it is one.
    /// So is the first byte of a token whose name in quotes is empty or holds a zero byte.
    #[error("a byte that begins no token")]
    BadByte(Place, u8),
    /// A string without its end, at the string's first byte.
    #[error("a string without its end")]
    OpenString(Place),
    /// An integer of more than 30 digits.
    #[error("a number of more than 30 digits")]
    LongNumber(Place),
    /// Memory ran out.
    #[error("out of memory")]
    NoMemory,
}

impl From<oi_base::NoMemory> for LexFault {
    ghost from_gives = { λ _ e. e ≡ NoMemory };

    fn from(_error: oi_base::NoMemory) -> LexFault {
        LexFault::NoMemory
    }
}
