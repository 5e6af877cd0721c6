ghost use Rattle.std.specs.Prelude.{◌≡◌, ◌<◌, ◌≤◌, false, length, IfOk, IfErr, OnErr};
ghost use Rattle.ir_lexer.specs.Lexing.{whole, is_in_comment, is_skipped, gap_len, next_token, LeavesFewer, IsFaultOf};

use crate::alphabet::is_separator;
use crate::fault::LexFault;
use crate::places::place_after;
use crate::scanning::token_at;
use crate::table::Token;
use oi_base::Place;
use std::alloc::Global;
use std::marker::Model;

/// Is a comment open after the byte, where one was or was not open before it?
fn is_in_comment(inside: bool, b: u8) -> bool
    ensures { result ≡ is_in_comment inside b }
{
    (inside || b == b';') && b != b'\n'
}

/// Is the byte a separator or in a comment?
fn is_skipped(inside: bool, b: u8) -> bool
    ensures { result ≡ is_skipped inside b }
{
    inside || b == b';' || is_separator(b)
}

/// How many bytes at the start are separators or in comments.
#[tactic(auto, using(crate::proofs::Gaps::goes_on, crate::proofs::Gaps::stops, crate::proofs::Gaps::ends))]
fn gap_len(text: &[u8]) -> usize
    ensures gap { result ≡ gap_len false text.now }
    ensures within { result ≤ length text.now }
{
    let mut inside = false;
    for (at, b) in text.iter().enumerate() {
        if !is_skipped(inside, *b) {
            return at;
        }
        inside = is_in_comment(inside, *b);
    }
    text.len()
}

/// Reads the tokens of a text, one a call. Contracts see it as what it has not read yet: the bytes, and the place of
/// the first of them.
#[derive(Debug, Drop)]
pub struct Lexer<'a> {
    text: &'a [u8],
    place: Place,
}

impl<'a> Model for Lexer<'a> {
    ghost use Rattle.std.specs.Prelude.{length};
    ghost use Rattle.ir_lexer.specs.Lexing.{Unread};
    ghost use Rattle.ir_lexer.specs.Places.{HasRoom};

    ghost Value = { Unread };

    ghost view = { λ l. record { bytes = l.text.now; place = l.place } };

    ghost invariant = { λ l. HasRoom l.place (length l.text.now) };
}

impl<'a> Lexer<'a> {
    /// A lexer before the first byte of a text. It takes no memory.
    pub fn new(bytes: &'a [u8]) -> Lexer<'a>
        requires { length bytes.now < 4294967295 }
        ensures { result ≡ whole bytes.now }
    {
        Lexer {
            text: bytes,
            place: Place { line: 1, column: 1 },
        }
    }

    /// The next token, and the place of its first byte. The last token is the end, at the place after the last byte, and
    /// each later call gives it again. After a fault the lexer is as it was before the call, so the next call gives the
    /// same fault.
    #[tactic(auto, unfolding(crate::specs::Lexing::next_token))]
    pub fn next(&mut self, alloc: Global) -> Result<(Token, Place), LexFault>
        ensures token { IfOk result (λ t. next_token self.old ≡ Ok (t, self.new)) }
        ensures fault { IfErr result (λ e. IsFaultOf e (next_token self.old)) }
        ensures err { OnErr result (self.new ≡ self.old) }
        ensures progress { IfOk result (λ t. LeavesFewer t.0 self.old self.new) }
    {
        let gap = gap_len(self.text);
        let place = place_after(self.place, &self.text[..gap]);
        let text = &self.text[gap..];
        let (token, size) = token_at(alloc, text, place)?;
        self.place = place_after(place, &text[..size]);
        self.text = &text[size..];
        Ok((token, place))
    }
}
