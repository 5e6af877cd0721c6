ghost use Rattle.std.specs.Prelude.{◌≡◌, ◌||◌, IfOk, ℕ, List, [], ◌∷◌, reverse};
ghost use Rattle.std.specs.Option.{option_map};
ghost use Rattle.ir_grammar.specs.Groups.{sign_awaits, token_awaits, inside, group, is_noinline_word};
ghost use Rattle.ir_phrases.specs.Signs.{put_back, head_awaits, head_noinline};
ghost use Rattle.ir_phrases.specs.Gives.{Gives};

use crate::ahead::Ahead;
use crate::fault::ReadFault;
use crate::making::push;
use crate::reader::Reader;
use ir_lexer::Token;
use oi_base::{Items, NoMemory, Text};

/// What a token does to the signs that are awaited.
#[derive(Clone, Copy)]
pub enum Step {
    /// It is the next one.
    Closes,
    /// It opens what this sign closes.
    Opens(u8),
    Stays,
}

/// What a sign does where another one is awaited; none where it cannot stand there.
fn sign_step(awaited: u8, sign: u8) -> Option<Step>
    ensures { (below : List ℕ) → sign_awaits awaited below sign ≡ option_map (put_back awaited below) result }
{
    if sign == awaited {
        Some(Step::Closes)
    } else if sign == b'(' {
        Some(Step::Opens(b')'))
    } else if sign == b'[' {
        Some(Step::Opens(b']'))
    } else if sign == b'{' {
        Some(Step::Opens(b'}'))
    } else if sign == b')' || sign == b']' || sign == b'}' {
        None
    } else {
        Some(Step::Stays)
    }
}

/// What a token does where a sign is awaited.
fn token_step(awaited: u8, token: &Token) -> Option<Step>
    ensures { (below : List ℕ) → token_awaits awaited below token.now ≡ option_map (put_back awaited below) result }
{
    match token {
        Token::Sign(sign) => sign_step(awaited, *sign),
        Token::End => None,
        _ => Some(Step::Stays),
    }
}

/// The signs that are awaited after a step, the next one last.
fn put_back(below: Text, awaited: u8, step: Step) -> Result<Text, NoMemory>
    ensures { IfOk result (λ r. reverse r ≡ put_back awaited (reverse below) step) }
{
    let mut signs = below;
    match step {
        Step::Closes => {}
        Step::Opens(closes) => {
            signs.push(awaited)?;
            signs.push(closes)?;
        }
        Step::Stays => signs.push(awaited)?,
    }
    Ok(signs)
}

fn is_noinline_word(token: &Token) -> bool
    ensures { result ≡ is_noinline_word token.now }
{
    match token {
        Token::Word(word) => word.as_slice() == b"noinline".as_slice(),
        _ => false,
    }
}

impl<'a> Reader<'a> {
    fn step(&self, awaited: u8) -> Option<Step>
        ensures { (below : List ℕ) → head_awaits awaited below self.now.tokens ≡ option_map (put_back awaited below) result }
    {
        match &self.ahead {
            Ahead::Token(spot) => token_step(awaited, &spot.token),
            _ => None,
        }
    }

    fn is_noinline(&self) -> bool
        ensures { result ≡ head_noinline self.now.tokens }
    {
        match &self.ahead {
            Ahead::Token(spot) => is_noinline_word(&spot.token),
            _ => false,
        }
    }

    /// Was the word `noinline` seen, or does it stand next?
    fn sees_noinline(&self, seen: bool) -> bool
        ensures { result ≡ (seen || head_noinline self.now.tokens) }
    {
        seen || self.is_noinline()
    }

    /// Tokens up to the sign that closes a group: is the word `noinline` among them?
    fn inside(&mut self, last: u8) -> Result<bool, ReadFault>
        ensures { Gives result self.new ((inside last).parse self.old) }
    {
        let mut signs = Items::new(self.alloc);
        push(&mut signs, last)?;
        let mut noinline = false;
        while let Some(awaited) = signs.pop() {
            let seen = self.sees_noinline(noinline);
            let Some(step) = self.step(awaited) else {
                return Err(self.fault());
            };
            signs = put_back(signs, awaited, step)?;
            self.pass()?;
            noinline = seen;
        }
        Ok(noinline)
    }

    /// GROUP
    #[tactic(auto, unfolding(ir_grammar::specs::Groups::group))]
    pub fn group(&mut self, first: u8, last: u8) -> Result<bool, ReadFault>
        ensures { Gives result self.new ((group first last).parse self.old) }
    {
        self.sign(first)?;
        self.inside(last)
    }
}
