ghost use Rattle.std.specs.Prelude.{◌≡◌, ◌∷◌, ◌++◌, [], map, OnOk};
ghost use Rattle.ir_printer.specs.Marks.{after_commas, separated, last_sign, bracketed, count_marks, gep_marks, bool_word, const_marks, typed_const_marks, value_marks, typed_marks, align_marks};
ghost use Rattle.ir_printer.specs.declared.marks.Mark.TheVariants as marks;

use crate::marks::{Mark, Sheet, Sign};
use crate::words::Word;
use ir_core::{Const, IrType, Operand, SymId, TypedConst, TypedCount, TypedOperand};
use oi_base::NoMemory;

impl Sheet {
    #[cycle(constants)]
    pub fn constant(&mut self, c: &Const) -> Result<(), NoMemory>
        ensures { OnOk result (self.new ≡ self.old ++ const_marks c.now) }
    {
        match c {
            Const::Int(value) => self.push(Mark::Int(*value)),
            Const::Bool(value) => self.word(bool_word(*value)),
            Const::Null => self.word(Word::Null),
            Const::Undef => self.word(Word::Undef),
            Const::Poison => self.word(Word::Poison),
            Const::Zero => self.word(Word::ZeroInitializer),
            Const::Bytes(bytes) => self.bytes(bytes.as_slice()),
            Const::Address(symbol) => self.push(Mark::Symbol(*symbol)),
            Const::Gep(ty, symbol, indices) => {
                self.constant_gep(ty, *symbol, indices.as_slice())
            }
            Const::Array(items) => {
                self.constants(Sign::OpenSquare, Sign::CloseSquare, items.as_slice())
            }
            Const::Struct(fields) => {
                self.constants(Sign::OpenCurly, Sign::CloseCurly, fields.as_slice())
            }
        }
    }

    /// Constants with their types between two signs.
    #[cycle(constants)]
    fn constants(&mut self, first: Sign, last: Sign, items: &[TypedConst]) -> Result<(), NoMemory>
        ensures { OnOk result (self.new ≡ self.old ++ bracketed first last (map typed_const_marks items.now)) }
    {
        self.push(Mark::Spaced(first))?;
        self.typed_constants(items)?;
        self.push(last_sign(last, items))
    }

    #[cycle(constants)]
    fn typed_constants(&mut self, items: &[TypedConst]) -> Result<(), NoMemory>
        ensures { OnOk result (self.new ≡ self.old ++ separated (map typed_const_marks items.now)) }
    {
        let mut is_first = true;
        for item in items {
            self.comma_unless(is_first)?;
            self.typed_constant(item)?;
            is_first = false;
        }
        Ok(())
    }

    #[cycle(constants)]
    fn typed_constant(&mut self, item: &TypedConst) -> Result<(), NoMemory>
        ensures { OnOk result (self.new ≡ self.old ++ typed_const_marks item.now) }
    {
        self.ty(&item.ty)?;
        self.constant(&item.value)
    }

    fn constant_gep(
        &mut self,
        ty: &IrType,
        symbol: SymId,
        indices: &[TypedCount],
    ) -> Result<(), NoMemory>
        ensures { OnOk result (self.new ≡ self.old ++ gep_marks ty.now (marks.Symbol symbol) indices.now) }
    {
        self.word(Word::GetElementPtr)?;
        self.push(Mark::Opening(Sign::OpenRound))?;
        self.ty(ty)?;
        self.comma()?;
        self.word(Word::Ptr)?;
        self.push(Mark::Symbol(symbol))?;
        self.counts_after_commas(indices)?;
        self.push(Mark::Closing(Sign::CloseRound))
    }

    fn counts_after_commas(&mut self, counts: &[TypedCount]) -> Result<(), NoMemory>
        ensures { OnOk result (self.new ≡ self.old ++ after_commas (map count_marks counts.now)) }
    {
        for count in counts {
            self.comma()?;
            self.count(count)?;
        }
        Ok(())
    }

    /// A number with its type.
    pub fn count(&mut self, count: &TypedCount) -> Result<(), NoMemory>
        ensures { OnOk result (self.new ≡ self.old ++ count_marks count.now) }
    {
        self.ty(&count.ty)?;
        self.push(Mark::Int(count.count))
    }

    pub fn value(&mut self, v: &Operand) -> Result<(), NoMemory>
        ensures { OnOk result (self.new ≡ self.old ++ value_marks v.now) }
    {
        match v {
            Operand::Local(name) => self.push(Mark::Local(*name)),
            Operand::Const(c) => self.constant(c),
        }
    }

    /// A value with its type.
    pub fn typed(&mut self, v: &TypedOperand) -> Result<(), NoMemory>
        ensures { OnOk result (self.new ≡ self.old ++ typed_marks v.now) }
    {
        self.ty(&v.ty)?;
        self.value(&v.value)
    }

    /// `, align 4`.
    pub fn align(&mut self, align: Option<u32>) -> Result<(), NoMemory>
        ensures { OnOk result (self.new ≡ self.old ++ align_marks align) }
    {
        let Some(align) = align else {
            return Ok(());
        };
        self.comma()?;
        self.word(Word::Align)?;
        self.push(Mark::Int(align as i128))
    }
}

fn bool_word(value: bool) -> Word
    ensures { result ≡ bool_word value }
{
    if value { Word::True } else { Word::False }
}

fn last_sign(sign: Sign, items: &[TypedConst]) -> Mark
    ensures { result ≡ last_sign sign (map typed_const_marks items.now) }
{
    match items {
        [] => Mark::Closing(sign),
        _ => Mark::Spaced(sign),
    }
}
