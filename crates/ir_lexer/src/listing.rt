ghost use Rattle.std.specs.Prelude.{◌≡◌, ◌<◌, length, IfOk, IfErr};
ghost use Rattle.ir_lexer.specs.Lexing.{whole, is_end, HasTokens, HasFirstFault};

use crate::fault::LexFault;
use crate::lexing::Lexer;
use crate::table::{Spot, Token};
use oi_base::{Items, NoMemory};
use std::alloc::Global;

/// Is the token the end of the text?
fn is_end(token: &Token) -> bool
    ensures { result ≡ is_end token.now }
{
    matches!(token, Token::End)
}

/// All tokens of a text with their places, the end being the last; or the first fault of the text.
#[tactic(auto, using(crate::proofs::Passed::one_more))]
pub fn tokens(alloc: Global, bytes: &[u8]) -> Result<Items<Spot>, LexFault>
    requires { length bytes.now < 4294967295 }
    ensures ok { IfOk result (HasTokens (whole bytes.now)) }
    ensures fault { IfErr result (HasFirstFault (whole bytes.now)) }
{
    let mut lexer = Lexer::new(bytes);
    let mut spots = Items::new(alloc);
    loop {
        let (token, place) = lexer.next(alloc)?;
        let last = is_end(&token);
        spots.push(Spot { token, place }).map_err(|_| NoMemory)?;
        if last {
            return Ok(spots);
        }
    }
}
