ghost use Rattle.std.specs.Prelude.{◌≡◌, ◌<◌, length, IfOk, IfErr};
ghost use Rattle.ir_lexer.specs.Lexing.{is_end};
ghost use Rattle.ir_phrases.specs.declared.fault.ReadFault.TheVariants as faults;
ghost use Rattle.ir_grammar.specs.Pieces.{pieces, lexical_place};
ghost use Rattle.ir_grammar.specs.Names.{no_names};
ghost use Rattle.ir_grammar.specs.Forms.{place_of};
ghost use Rattle.ir_phrases.specs.Gives.{Passes, refused, beyond};

use crate::ahead::{Ahead, next_ahead};
use crate::fault::ReadFault;
use crate::table::Table;
use crate::words::is_left_out;
use ir_grammar::Which;
use ir_lexer::{LexFault, Lexer, Token};
use oi_base::Place;
use std::alloc::Global;
use std::marker::Model;

/// Reads a text from left to right, with one token in view. Contracts see it as what it has not read yet, and the names
/// so far.
#[derive(Drop)]
pub struct Reader<'a> {
    pub(crate) alloc: Global,
    pub(crate) lexer: Lexer<'a>,
    pub(crate) ahead: Ahead,
    pub(crate) symbols: Table,
    pub(crate) types: Table,
    pub(crate) locals: Table,
    pub(crate) next: u128,
}

impl<'a> Model for Reader<'a> {
    ghost use Rattle.ir_grammar.specs.Forms.{Left};
    ghost use Rattle.ir_grammar.specs.Pieces.{pieces_of};
    ghost use Rattle.ir_phrases.specs.Gives.{with_ahead};

    ghost Value = { Left };

    ghost view = { λ r. record { names = record { symbols = r.symbols; types = r.types; locals = r.locals; next = r.next }; tokens = with_ahead r.ahead (pieces_of r.lexer) } };
}

/// Is the token the end of the text?
fn is_end(token: &Token) -> bool
    ensures { result ≡ is_end token.now }
{
    matches!(token, Token::End)
}

/// The place of a lexical fault.
fn lexical_place(fault: LexFault) -> Place
    ensures { result ≡ lexical_place fault }
{
    match fault {
        LexFault::BadByte(place, _) | LexFault::OpenString(place) | LexFault::LongNumber(place) => {
            place
        }
        LexFault::NoMemory => Place { line: 0, column: 0 },
    }
}

impl<'a> Reader<'a> {
    /// A reader before the first token of a text.
    pub fn start(alloc: Global, bytes: &'a [u8]) -> Result<Reader<'a>, ReadFault>
        requires { length bytes.now < 4294967295 }
        ensures start { IfOk result (λ r. r ≡ record { names = no_names; tokens = pieces bytes.now }) }
        ensures err { IfErr result (λ e. e ≡ faults.NoMemory) }
    {
        let mut lexer = Lexer::new(bytes);
        let ahead = next_ahead(&mut lexer, alloc)?;
        Ok(Reader {
            alloc,
            lexer,
            ahead,
            symbols: Table::new(alloc),
            types: Table::new(alloc),
            locals: Table::new(alloc),
            next: 0,
        })
    }

    /// Where its memory comes from.
    pub fn alloc(&self) -> Global {
        self.alloc
    }

    /// Passes what stands next.
    pub fn pass(&mut self) -> Result<(), ReadFault>
        ensures { Passes result self.old self.new }
    {
        let more = match &self.ahead {
            Ahead::Token(spot) => !is_end(&spot.token),
            Ahead::Fault(_) | Ahead::Nothing => false,
        };
        if more {
            self.ahead = next_ahead(&mut self.lexer, self.alloc)?;
        } else {
            self.ahead = Ahead::Nothing;
        }
        Ok(())
    }

    /// The place of what stands next.
    pub fn place(&self) -> Place
        ensures { result ≡ place_of self.now.tokens }
    {
        match &self.ahead {
            Ahead::Token(spot) => spot.place,
            Ahead::Fault(fault) => lexical_place(*fault),
            Ahead::Nothing => Place { line: 0, column: 0 },
        }
    }

    /// The fault where nothing goes on with what stands next.
    pub fn fault(&self) -> ReadFault
        ensures { result ≡ refused self.now.tokens }
    {
        match &self.ahead {
            Ahead::Token(spot) if is_left_out(&spot.token) => ReadFault::LeftOut(spot.place),
            Ahead::Token(spot) => ReadFault::Syntax(spot.place),
            Ahead::Fault(fault) => ReadFault::Lexical(*fault),
            Ahead::Nothing => ReadFault::Syntax(Place { line: 0, column: 0 }),
        }
    }

    /// The fault where what stands next passes a limit.
    pub fn limit(&self, which: Which) -> ReadFault
        ensures { result ≡ faults.Limit (place_of self.now.tokens) which }
    {
        ReadFault::Limit(self.place(), which)
    }

    /// The fault where whatever token stands next passes a limit.
    pub fn beyond(&self, which: Which) -> ReadFault
        ensures { result ≡ beyond which self.now.tokens }
    {
        match &self.ahead {
            Ahead::Token(_) => self.limit(which),
            Ahead::Fault(_) | Ahead::Nothing => self.fault(),
        }
    }
}
