ghost use Rattle.std.specs.Prelude.{◌≡◌, ◌++◌, map, OnOk};
ghost use Rattle.ir_printer.specs.Marks.{after_commas, separated, in_round, param_marks, word_if, head_marks, body_marks, func_marks, storage_word, global_marks, type_def_marks, signature, one_or_none, declared_marks, target_line_marks};

use crate::marks::{Mark, Sheet, Sign};
use crate::words::Word;
use ir_core::{Block, Declaration, Func, GlobalVar, Param, TypeDef};
use oi_base::{NoMemory, Width};

impl Sheet {
    /// The definition of a function.
    pub fn func(&mut self, f: &Func) -> Result<(), NoMemory>
        ensures { OnOk result (self.new ≡ self.old ++ func_marks f.now) }
    {
        self.head(f)?;
        self.body(f.blocks.as_slice())
    }

    /// `define i32 @f(i32 %a)`.
    fn head(&mut self, f: &Func) -> Result<(), NoMemory>
        ensures { OnOk result (self.new ≡ self.old ++ head_marks f.now) }
    {
        self.word(Word::Define)?;
        self.word_if(f.internal, Word::Internal)?;
        self.ty(&f.result)?;
        self.push(Mark::Symbol(f.name))?;
        self.params(f.params.as_slice())?;
        self.word_if(f.noinline, Word::NoInline)
    }

    /// ` {`, the blocks, and `}` on a line of its own.
    fn body(&mut self, blocks: &[Block]) -> Result<(), NoMemory>
        ensures { OnOk result (self.new ≡ self.old ++ body_marks blocks.now) }
    {
        self.push(Mark::Spaced(Sign::OpenCurly))?;
        self.blocks(blocks)?;
        self.push(Mark::Line)?;
        self.push(Mark::Spaced(Sign::CloseCurly))
    }

    /// The word, where this is so.
    fn word_if(&mut self, is_so: bool, word: Word) -> Result<(), NoMemory>
        ensures { OnOk result (self.new ≡ self.old ++ word_if is_so word) }
    {
        if is_so { self.word(word) } else { Ok(()) }
    }

    fn params(&mut self, params: &[Param]) -> Result<(), NoMemory>
        ensures { OnOk result (self.new ≡ self.old ++ in_round (map param_marks params.now)) }
    {
        self.push(Mark::Joined(Sign::OpenRound))?;
        self.param_list(params)?;
        self.push(Mark::Closing(Sign::CloseRound))
    }

    fn param_list(&mut self, params: &[Param]) -> Result<(), NoMemory>
        ensures { OnOk result (self.new ≡ self.old ++ separated (map param_marks params.now)) }
    {
        match params {
            [] => Ok(()),
            [first, more @ ..] => {
                self.param(first)?;
                self.params_after_commas(more)
            }
        }
    }

    fn params_after_commas(&mut self, params: &[Param]) -> Result<(), NoMemory>
        ensures { OnOk result (self.new ≡ self.old ++ after_commas (map param_marks params.now)) }
    {
        for param in params {
            self.comma()?;
            self.param(param)?;
        }
        Ok(())
    }

    fn param(&mut self, param: &Param) -> Result<(), NoMemory>
        ensures { OnOk result (self.new ≡ self.old ++ param_marks param.now) }
    {
        self.ty(&param.ty)?;
        self.push(Mark::Local(param.name))
    }

    /// `@g = global i32 0, align 4`.
    pub fn global(&mut self, g: &GlobalVar) -> Result<(), NoMemory>
        ensures { OnOk result (self.new ≡ self.old ++ global_marks g.now) }
    {
        self.push(Mark::Symbol(g.name))?;
        self.push(Mark::Spaced(Sign::Equals))?;
        self.word_if(g.internal, Word::Internal)?;
        self.word(storage_word(g.constant))?;
        self.ty(&g.ty)?;
        self.constant(&g.init)?;
        self.align(g.align)
    }

    /// `%t = type { i32 }`.
    pub fn type_def(&mut self, d: &TypeDef) -> Result<(), NoMemory>
        ensures { OnOk result (self.new ≡ self.old ++ type_def_marks d.now) }
    {
        self.push(Mark::TypeName(d.name))?;
        self.push(Mark::Spaced(Sign::Equals))?;
        self.word(Word::Type)?;
        self.ty(&d.ty)
    }

    /// `declare i32 @putchar(i32)`, where the function's name is this.
    pub fn declaration(&mut self, name: &[u8], d: &Declaration) -> Result<(), NoMemory>
        ensures { OnOk result (self.new ≡ self.old ++ declared_marks name.now d.now) }
    {
        let (gives, takes) = signature(name);
        self.word(Word::Declare)?;
        self.word(gives)?;
        self.push(Mark::Symbol(d.name))?;
        self.one_or_none(takes)
    }

    /// A type word, or nothing, in brackets.
    fn one_or_none(&mut self, word: Option<Word>) -> Result<(), NoMemory>
        ensures { OnOk result (self.new ≡ self.old ++ in_round (one_or_none word)) }
    {
        self.push(Mark::Joined(Sign::OpenRound))?;
        match word {
            Some(word) => {
                self.word(word)?;
                self.push(Mark::Closing(Sign::CloseRound))
            }
            None => self.push(Mark::Closing(Sign::CloseRound)),
        }
    }

    /// `target triple = "riscv32"`.
    pub fn target_line(&mut self, word: Word, said: &[u8]) -> Result<(), NoMemory>
        ensures { OnOk result (self.new ≡ self.old ++ target_line_marks word said.now) }
    {
        self.word(Word::Target)?;
        self.word(word)?;
        self.push(Mark::Spaced(Sign::Equals))?;
        self.string(said)
    }
}

fn storage_word(is_constant: bool) -> Word
    ensures { result ≡ storage_word is_constant }
{
    if is_constant {
        Word::Constant
    } else {
        Word::Global
    }
}

/// What a declared function of this name gives and takes.
fn signature(name: &[u8]) -> (Word, Option<Word>)
    ensures { result ≡ signature name.now }
{
    if name == b"putchar".as_slice() {
        (Word::Int(Width::W32), Some(Word::Int(Width::W32)))
    } else if name == b"getchar".as_slice() {
        (Word::Int(Width::W32), None)
    } else if name == b"exit".as_slice() {
        (Word::Void, Some(Word::Int(Width::W32)))
    } else {
        (Word::Void, None)
    }
}
