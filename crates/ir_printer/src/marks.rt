ghost use Rattle.std.specs.Prelude.{◌≡◌, ◌∷◌, ◌++◌, [], OnOk};
ghost use Rattle.ir_printer.specs.Layout.{sign_byte};
ghost use Rattle.ir_printer.specs.declared.marks.Mark.TheVariants as marks;
ghost use Rattle.ir_printer.specs.Marks.{comma, word as word_mark};

use crate::words::Word;
use ir_core::{LocalId, SymId, TypeName};
use oi_base::{NoMemory, Text};
use std::alloc::Global;
use std::marker::Model;

/// A sign of a printed text.
#[derive(Clone, Copy, Drop)]
pub enum Sign {
    Equals,
    Comma,
    OpenRound,
    CloseRound,
    OpenSquare,
    CloseSquare,
    OpenCurly,
    CloseCurly,
}

impl Sign {
    pub fn byte(self) -> u8
        ensures { result ≡ sign_byte self }
    {
        match self {
            Sign::Equals => b'=',
            Sign::Comma => b',',
            Sign::OpenRound => b'(',
            Sign::CloseRound => b')',
            Sign::OpenSquare => b'[',
            Sign::CloseSquare => b']',
            Sign::OpenCurly => b'{',
            Sign::CloseCurly => b'}',
        }
    }
}

/// A part of a printed text: a token, in which a name is its position in the list of its kind, or the end of a line.
/// A blank stands between two tokens of a line, but for a sign that stands directly after the token before it, or has
/// the next one directly after it.
#[derive(Drop)]
pub enum Mark {
    Word(Word),
    Int(i128),
    /// A string.
    Str(Text),
    /// `c` and a string.
    CStr(Text),
    /// `@` and a name.
    Symbol(SymId),
    /// `%` and the name of a type.
    TypeName(TypeName),
    /// `%` and a name of the function.
    Local(LocalId),
    /// A name of the function, and `:`.
    Label(LocalId),
    Spaced(Sign),
    /// Directly after the token before it.
    Closing(Sign),
    /// The next token stands directly after it.
    Opening(Sign),
    /// Both.
    Joined(Sign),
    /// A line begins.
    Line,
    /// A line begins, with two blanks.
    Indented,
}

/// Marks that are put one after the other. Contracts see their list.
#[derive(Drop)]
pub struct Sheet {
    alloc: Global,
    marks: Vec<Mark>,
}

impl Model for Sheet {
    ghost use Rattle.std.specs.Prelude.{List};
    ghost use Rattle.ir_printer.specs.declared.marks.Mark.{Mark};

    ghost Value = { List Mark };

    ghost view = { λ s. s.marks.items };
}

impl Sheet {
    pub fn new(alloc: Global) -> Sheet
        ensures { result ≡ [] }
    {
        Sheet {
            alloc,
            marks: Vec::new(alloc),
        }
    }

    pub fn as_slice(&self) -> &[Mark]
        ensures { result.now ≡ self.now }
    {
        self.marks.as_slice()
    }

    pub fn push(&mut self, mark: Mark) -> Result<(), NoMemory>
        ensures { OnOk result (self.new ≡ self.old ++ mark ∷ []) }
    {
        self.marks.push(mark)?;
        Ok(())
    }

    pub fn word(&mut self, word: Word) -> Result<(), NoMemory>
        ensures { OnOk result (self.new ≡ self.old ++ word_mark word ∷ []) }
    {
        self.push(Mark::Word(word))
    }

    pub fn comma(&mut self) -> Result<(), NoMemory>
        ensures { OnOk result (self.new ≡ self.old ++ comma ∷ []) }
    {
        self.push(Mark::Closing(Sign::Comma))
    }

    /// A string.
    pub fn string(&mut self, said: &[u8]) -> Result<(), NoMemory>
        ensures { OnOk result (self.new ≡ self.old ++ marks.Str said.now ∷ []) }
    {
        let said = Text::from_slice(self.alloc, said)?;
        self.push(Mark::Str(said))
    }

    /// `c` and a string.
    pub fn bytes(&mut self, said: &[u8]) -> Result<(), NoMemory>
        ensures { OnOk result (self.new ≡ self.old ++ marks.CStr said.now ∷ []) }
    {
        let said = Text::from_slice(self.alloc, said)?;
        self.push(Mark::CStr(said))
    }
}
