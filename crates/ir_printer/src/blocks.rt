ghost use Rattle.std.specs.Prelude.{◌≡◌, ◌++◌, flat_map, OnOk};
ghost use Rattle.ir_printer.specs.Marks.{instr_marks, target_marks, case_marks, end_marks, block_marks};
ghost use Rattle.ir_core.specs.declared.op.End.TheVariants as ends;

use crate::marks::{Mark, Sheet, Sign};
use crate::words::Word;
use ir_core::{Block, End, Instr, LocalId, SwitchCase, TypedOperand};
use oi_base::NoMemory;

impl Sheet {
    pub fn blocks(&mut self, blocks: &[Block]) -> Result<(), NoMemory>
        ensures { OnOk result (self.new ≡ self.old ++ flat_map block_marks blocks.now) }
    {
        for block in blocks {
            self.block(block)?;
        }
        Ok(())
    }

    /// The lines of a block.
    fn block(&mut self, b: &Block) -> Result<(), NoMemory>
        ensures { OnOk result (self.new ≡ self.old ++ block_marks b.now) }
    {
        self.push(Mark::Line)?;
        self.push(Mark::Label(b.label))?;
        self.code(b.code.as_slice())?;
        self.push(Mark::Indented)?;
        self.end(&b.end)
    }

    fn code(&mut self, code: &[Instr]) -> Result<(), NoMemory>
        ensures { OnOk result (self.new ≡ self.old ++ flat_map instr_marks code.now) }
    {
        for i in code {
            self.instr(i)?;
        }
        Ok(())
    }

    fn end(&mut self, end: &End) -> Result<(), NoMemory>
        ensures { OnOk result (self.new ≡ self.old ++ end_marks end.now) }
    {
        match end {
            End::Ret(value) => self.ret(value),
            End::Br(to) => self.jump(*to),
            End::Cond(condition, yes, no) => self.branch(condition, *yes, *no),
            End::Switch(value, other, cases) => self.switch(value, *other, cases.as_slice()),
            End::Unreachable => self.word(Word::Unreachable),
        }
    }

    fn ret(&mut self, value: &Option<TypedOperand>) -> Result<(), NoMemory>
        ensures { OnOk result (self.new ≡ self.old ++ end_marks (ends.Ret value.now)) }
    {
        self.word(Word::Ret)?;
        match value {
            Some(value) => self.typed(value),
            None => self.word(Word::Void),
        }
    }

    fn jump(&mut self, to: LocalId) -> Result<(), NoMemory>
        ensures { OnOk result (self.new ≡ self.old ++ end_marks (ends.Br to)) }
    {
        self.word(Word::Br)?;
        self.target(to)
    }

    fn branch(
        &mut self,
        condition: &TypedOperand,
        yes: LocalId,
        no: LocalId,
    ) -> Result<(), NoMemory>
        ensures { OnOk result (self.new ≡ self.old ++ end_marks (ends.Cond condition.now yes no)) }
    {
        self.word(Word::Br)?;
        self.typed(condition)?;
        self.comma()?;
        self.target(yes)?;
        self.comma()?;
        self.target(no)
    }

    /// `label %b`.
    fn target(&mut self, to: LocalId) -> Result<(), NoMemory>
        ensures { OnOk result (self.new ≡ self.old ++ target_marks to) }
    {
        self.word(Word::Label)?;
        self.push(Mark::Local(to))
    }

    fn switch(
        &mut self,
        value: &TypedOperand,
        other: LocalId,
        cases: &[SwitchCase],
    ) -> Result<(), NoMemory>
        ensures { OnOk result (self.new ≡ self.old ++ end_marks (ends.Switch value.now other cases.now)) }
    {
        self.word(Word::Switch)?;
        self.typed(value)?;
        self.comma()?;
        self.target(other)?;
        self.push(Mark::Spaced(Sign::OpenSquare))?;
        self.cases(cases)?;
        self.push(Mark::Spaced(Sign::CloseSquare))
    }

    fn cases(&mut self, cases: &[SwitchCase]) -> Result<(), NoMemory>
        ensures { OnOk result (self.new ≡ self.old ++ flat_map case_marks cases.now) }
    {
        for case in cases {
            self.case(case)?;
        }
        Ok(())
    }

    fn case(&mut self, case: &SwitchCase) -> Result<(), NoMemory>
        ensures { OnOk result (self.new ≡ self.old ++ case_marks case.now) }
    {
        self.typed(&case.value)?;
        self.comma()?;
        self.target(case.to)
    }
}
