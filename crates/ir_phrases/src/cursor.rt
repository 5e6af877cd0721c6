ghost use Rattle.std.specs.Prelude.{◌≡◌, Some, None};
ghost use Rattle.ir_core.specs.declared.limits.TheConstants.{MOST_LENGTH};
ghost use Rattle.std.specs.Option.{option_map};
ghost use Rattle.ir_grammar.specs.declared.kinds.Kind.TheVariants as kinds;
ghost use Rattle.ir_grammar.specs.Sets.{head_in, IsWord, kind_if, hash_kind, meta_kind};
ghost use Rattle.ir_phrases.specs.Gives.{Gives, head_word, head_global};
ghost use Rattle.ir_grammar.specs.Tokens.{expect, sign as sign_set, word as word_set, kind as kind_set, text as text_form, int as int_form, number as number_form, stated};

use crate::ahead::Ahead;
use crate::fault::ReadFault;
use crate::reader::Reader;
use crate::words::{are_digits, is_debug};
use ir_core::MOST_LENGTH;
use ir_grammar::{Kind, Which};
use ir_lexer::Token;
use oi_base::Text;

impl<'a> Reader<'a> {
    pub fn is_sign(&self, sign: u8) -> bool
        ensures { result ≡ head_in (sign_set sign) self.now.tokens }
    {
        match &self.ahead {
            Ahead::Token(spot) => match &spot.token {
                Token::Sign(found) => *found == sign,
                _ => false,
            },
            _ => false,
        }
    }

    pub fn is_word(&self, word: &[u8]) -> bool
        ensures { result ≡ head_in (word_set word.now) self.now.tokens }
    {
        match &self.ahead {
            Ahead::Token(spot) => match &spot.token {
                Token::Word(found) => found.as_slice() == word,
                _ => false,
            },
            _ => false,
        }
    }

    /// The word that stands next, if one does.
    pub fn next_word(&self) -> Option<&[u8]>
        ensures { option_map (λ w. w.now) result ≡ head_word self.now.tokens }
    {
        match &self.ahead {
            Ahead::Token(spot) => match &spot.token {
                Token::Word(found) => Some(found.as_slice()),
                _ => None,
            },
            _ => None,
        }
    }

    /// The name after `@` that stands next, if one does.
    pub fn next_global(&self) -> Option<&[u8]>
        ensures { option_map (λ n. n.now) result ≡ head_global self.now.tokens }
    {
        match &self.ahead {
            Ahead::Token(spot) => match &spot.token {
                Token::Global(found) => Some(found.as_slice()),
                _ => None,
            },
            _ => None,
        }
    }

    /// Takes a sign.
    pub fn sign(&mut self, sign: u8) -> Result<(), ReadFault>
        ensures { Gives result self.new ((expect (sign_set sign)).parse self.old) }
    {
        if !self.is_sign(sign) {
            return Err(self.fault());
        }
        self.pass()
    }

    /// Takes a word.
    pub fn word(&mut self, word: &[u8]) -> Result<(), ReadFault>
        ensures { Gives result self.new ((expect (word_set word.now)).parse self.old) }
    {
        if !self.is_word(word) {
            return Err(self.fault());
        }
        self.pass()
    }

    /// Takes an integer.
    pub fn int(&mut self) -> Result<i128, ReadFault>
        ensures { Gives result self.new (int_form.parse self.old) }
    {
        let found = match &self.ahead {
            Ahead::Token(spot) => match &spot.token {
                Token::Int(n) => *n,
                _ => return Err(self.fault()),
            },
            _ => return Err(self.fault()),
        };
        self.pass()?;
        Ok(found)
    }

    /// Takes a length, a count or an alignment.
    pub fn number(&mut self) -> Result<u32, ReadFault>
        ensures { Gives result self.new ((number_form (Some MOST_LENGTH)).parse self.old) }
    {
        let found = match &self.ahead {
            Ahead::Token(spot) => match &spot.token {
                Token::Int(n) => *n,
                _ => return Err(self.fault()),
            },
            _ => return Err(self.fault()),
        };
        if found < 0 || found > MOST_LENGTH as i128 {
            return Err(self.limit(Which::Length));
        }
        self.pass()?;
        Ok(found as u32)
    }
}
