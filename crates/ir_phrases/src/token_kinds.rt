ghost use Rattle.std.specs.Prelude.{◌≡◌, IfOk};
ghost use Rattle.ir_grammar.specs.Sets.{head_in, has, number, same_kind, meta_kind, hash_kind};
ghost use Rattle.ir_phrases.specs.Gives.{Gives};
ghost use Rattle.ir_grammar.specs.Tokens.{kind as kind_set, bytes_of, text as text_form, expect};
ghost use Rattle.ir_grammar.specs.Entities.{before_name};

use crate::ahead::Ahead;
use crate::fault::ReadFault;
use crate::reader::Reader;
use crate::words::{are_digits, is_debug};
use ir_grammar::Kind;
use ir_lexer::Token;
use oi_base::{NoMemory, Text};
use std::alloc::Global;

fn number(kind: Kind) -> u8
    ensures { result ≡ number kind }
{
    match kind {
        Kind::Int => 0,
        Kind::Label => 1,
        Kind::Local => 2,
        Kind::Global => 3,
        Kind::Str => 4,
        Kind::CStr => 5,
        Kind::Meta => 6,
        Kind::Hash => 7,
        Kind::Skipped => 8,
        Kind::End => 9,
    }
}

fn same_kind(a: Kind, b: Kind) -> bool
    ensures { result ≡ same_kind a b }
{
    number(a) == number(b)
}

fn meta_kind(name: &[u8]) -> Kind
    ensures { result ≡ meta_kind name.now }
{
    if is_debug(name) {
        Kind::Skipped
    } else {
        Kind::Meta
    }
}

fn hash_kind(name: &[u8]) -> Kind
    ensures { result ≡ hash_kind name.now }
{
    if are_digits(name) {
        Kind::Hash
    } else {
        Kind::Skipped
    }
}

/// Has the token this kind?
fn has_kind(token: &Token, kind: Kind) -> bool
    ensures { result ≡ has (kind_set kind) token.now }
{
    match token {
        Token::Int(_) => same_kind(Kind::Int, kind),
        Token::Label(_) => same_kind(Kind::Label, kind),
        Token::Local(_) => same_kind(Kind::Local, kind),
        Token::Global(_) => same_kind(Kind::Global, kind),
        Token::Str(_) => same_kind(Kind::Str, kind),
        Token::CStr(_) => same_kind(Kind::CStr, kind),
        Token::Meta(name) => same_kind(meta_kind(name.as_slice()), kind),
        Token::Hash(name) => same_kind(hash_kind(name.as_slice()), kind),
        Token::End => same_kind(Kind::End, kind),
        Token::Word(_) | Token::Sign(_) => false,
    }
}

/// A copy of the name or the string of a token.
fn bytes_of(alloc: Global, token: &Token) -> Result<Text, NoMemory>
    ensures { IfOk result (λ t. t ≡ bytes_of token.now) }
{
    match token {
        Token::Label(name)
        | Token::Local(name)
        | Token::Global(name)
        | Token::Str(name)
        | Token::CStr(name)
        | Token::Meta(name)
        | Token::Hash(name) => Ok(Text::from_slice(alloc, name.as_slice())?),
        Token::Int(_) | Token::Word(_) | Token::Sign(_) | Token::End => Ok(Text::new(alloc)),
    }
}

impl<'a> Reader<'a> {
    pub fn is_kind(&self, kind: Kind) -> bool
        ensures { result ≡ head_in (kind_set kind) self.now.tokens }
    {
        match &self.ahead {
            Ahead::Token(spot) => has_kind(&spot.token, kind),
            _ => false,
        }
    }

    /// Takes a token of a kind.
    pub fn kind(&mut self, kind: Kind) -> Result<(), ReadFault>
        ensures { Gives result self.new ((expect (kind_set kind)).parse self.old) }
    {
        if !self.is_kind(kind) {
            return Err(self.fault());
        }
        self.pass()
    }

    /// Takes a token of a kind, and gives its name or string.
    pub fn text(&mut self, kind: Kind) -> Result<Text, ReadFault>
        ensures { Gives result self.new ((text_form kind).parse self.old) }
    {
        let text = match &self.ahead {
            Ahead::Token(spot) => {
                if !has_kind(&spot.token, kind) {
                    return Err(self.fault());
                }
                bytes_of(self.alloc, &spot.token)?
            }
            _ => return Err(self.fault()),
        };
        self.pass()?;
        Ok(text)
    }

    /// Does a token stand next that is neither the end nor a name after `@`?
    pub fn is_before_name(&self) -> bool
        ensures { result ≡ head_in before_name self.now.tokens }
    {
        match &self.ahead {
            Ahead::Token(spot) => {
                !has_kind(&spot.token, Kind::Global) && !has_kind(&spot.token, Kind::End)
            }
            Ahead::Fault(_) | Ahead::Nothing => false,
        }
    }

    /// Takes such a token.
    pub fn before_name(&mut self) -> Result<(), ReadFault>
        ensures { Gives result self.new ((expect before_name).parse self.old) }
    {
        if !self.is_before_name() {
            return Err(self.fault());
        }
        self.pass()
    }
}
