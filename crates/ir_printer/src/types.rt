ghost use Rattle.std.specs.Prelude.{◌≡◌, ◌++◌, map, OnOk};
ghost use Rattle.ir_printer.specs.Marks.{array_marks, type_marks, separated, comma_unless, last_sign, in_curly};

use crate::marks::{Mark, Sheet, Sign};
use crate::words::Word;
use ir_core::IrType;
use oi_base::NoMemory;

impl Sheet {
    #[cycle(types)]
    pub fn ty(&mut self, t: &IrType) -> Result<(), NoMemory>
        ensures { OnOk result (self.new ≡ self.old ++ type_marks t.now) }
    {
        match t {
            IrType::Void => self.word(Word::Void),
            IrType::Int(width) => self.word(Word::Int(*width)),
            IrType::Ptr => self.word(Word::Ptr),
            IrType::Array(count, item) => self.array(*count, item.get()),
            IrType::Struct(fields) => self.structure(fields.as_slice()),
            IrType::Named(name) => self.push(Mark::TypeName(*name)),
        }
    }

    #[cycle(types)]
    fn array(&mut self, count: u32, item: &IrType) -> Result<(), NoMemory>
        ensures { OnOk result (self.new ≡ self.old ++ array_marks count (type_marks item.now)) }
    {
        self.push(Mark::Opening(Sign::OpenSquare))?;
        self.push(Mark::Int(count as i128))?;
        self.word(Word::X)?;
        self.ty(item)?;
        self.push(Mark::Closing(Sign::CloseSquare))
    }

    #[cycle(types)]
    fn structure(&mut self, fields: &[IrType]) -> Result<(), NoMemory>
        ensures { OnOk result (self.new ≡ self.old ++ in_curly (map type_marks fields.now)) }
    {
        self.push(Mark::Spaced(Sign::OpenCurly))?;
        self.types(fields)?;
        self.push(last_sign(Sign::CloseCurly, fields))
    }

    #[cycle(types)]
    fn types(&mut self, types: &[IrType]) -> Result<(), NoMemory>
        ensures { OnOk result (self.new ≡ self.old ++ separated (map type_marks types.now)) }
    {
        let mut is_first = true;
        for t in types {
            self.comma_unless(is_first)?;
            self.ty(t)?;
            is_first = false;
        }
        Ok(())
    }

    /// A comma, but before the first part.
    pub fn comma_unless(&mut self, is_first: bool) -> Result<(), NoMemory>
        ensures { OnOk result (self.new ≡ self.old ++ comma_unless is_first) }
    {
        if is_first { Ok(()) } else { self.comma() }
    }
}

fn last_sign(sign: Sign, types: &[IrType]) -> Mark
    ensures { result ≡ last_sign sign (map type_marks types.now) }
{
    match types {
        [] => Mark::Closing(sign),
        _ => Mark::Spaced(sign),
    }
}
