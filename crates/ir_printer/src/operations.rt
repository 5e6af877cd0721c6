ghost use Rattle.std.specs.Prelude.{◌≡◌, ◌++◌, map, OnOk};
ghost use Rattle.ir_printer.specs.Marks.{after_commas, separated, in_round, typed_marks, two_marks, alloca_count_marks, pair_marks, op_marks, result_marks, instr_marks};
ghost use Rattle.ir_core.specs.declared.op.Op.TheVariants as ops;

use crate::marks::{Mark, Sheet, Sign};
use crate::words::Word;
use ir_core::{
    BinOp, CastOp, Cmp, Instr, IrType, LocalId, Op, Operand, Pair, SymId, TypedCount, TypedOperand,
};
use oi_base::NoMemory;

impl Sheet {
    /// A line with an instruction.
    pub fn instr(&mut self, i: &Instr) -> Result<(), NoMemory>
        ensures { OnOk result (self.new ≡ self.old ++ instr_marks i.now) }
    {
        self.push(Mark::Indented)?;
        self.register(i.result)?;
        self.op(&i.op)
    }

    /// `%r = `.
    fn register(&mut self, register: Option<LocalId>) -> Result<(), NoMemory>
        ensures { OnOk result (self.new ≡ self.old ++ result_marks register) }
    {
        let Some(register) = register else {
            return Ok(());
        };
        self.push(Mark::Local(register))?;
        self.push(Mark::Spaced(Sign::Equals))
    }

    fn op(&mut self, op: &Op) -> Result<(), NoMemory>
        ensures { OnOk result (self.new ≡ self.old ++ op_marks op.now) }
    {
        match op {
            Op::Bin(op, ty, a, b) => self.bin(*op, ty, a, b),
            Op::Icmp(order, ty, a, b) => self.icmp(*order, ty, a, b),
            Op::Select(condition, a, b) => self.select(condition, a, b),
            Op::Cast(op, from, to) => self.cast(*op, from, to),
            Op::Alloca(ty, count, align) => self.alloca(ty, count, *align),
            Op::Load(ty, from, align) => self.load(ty, from, *align),
            Op::Store(value, to, align) => self.store(value, to, *align),
            Op::Gep(ty, base, indices) => self.gep(ty, base, indices.as_slice()),
            Op::Phi(ty, pairs) => self.phi(ty, pairs.as_slice()),
            Op::Call(ty, callee, args) => self.call(ty, *callee, args.as_slice()),
        }
    }

    fn bin(&mut self, op: BinOp, ty: &IrType, a: &Operand, b: &Operand) -> Result<(), NoMemory>
        ensures { OnOk result (self.new ≡ self.old ++ op_marks (ops.Bin op ty.now a.now b.now)) }
    {
        self.word(Word::Bin(op))?;
        self.two(ty, a, b)
    }

    fn icmp(&mut self, order: Cmp, ty: &IrType, a: &Operand, b: &Operand) -> Result<(), NoMemory>
        ensures { OnOk result (self.new ≡ self.old ++ op_marks (ops.Icmp order ty.now a.now b.now)) }
    {
        self.word(Word::Icmp)?;
        self.word(Word::Order(order))?;
        self.two(ty, a, b)
    }

    /// Two values of one type.
    fn two(&mut self, ty: &IrType, a: &Operand, b: &Operand) -> Result<(), NoMemory>
        ensures { OnOk result (self.new ≡ self.old ++ two_marks ty.now a.now b.now) }
    {
        self.ty(ty)?;
        self.value(a)?;
        self.comma()?;
        self.value(b)
    }

    fn select(
        &mut self,
        condition: &TypedOperand,
        a: &TypedOperand,
        b: &TypedOperand,
    ) -> Result<(), NoMemory>
        ensures { OnOk result (self.new ≡ self.old ++ op_marks (ops.Select condition.now a.now b.now)) }
    {
        self.word(Word::Select)?;
        self.typed(condition)?;
        self.comma()?;
        self.typed(a)?;
        self.comma()?;
        self.typed(b)
    }

    fn cast(&mut self, op: CastOp, from: &TypedOperand, to: &IrType) -> Result<(), NoMemory>
        ensures { OnOk result (self.new ≡ self.old ++ op_marks (ops.Cast op from.now to.now)) }
    {
        self.word(Word::Cast(op))?;
        self.typed(from)?;
        self.word(Word::To)?;
        self.ty(to)
    }

    fn alloca(
        &mut self,
        ty: &IrType,
        count: &Option<TypedCount>,
        align: Option<u32>,
    ) -> Result<(), NoMemory>
        ensures { OnOk result (self.new ≡ self.old ++ op_marks (ops.Alloca ty.now count.now align)) }
    {
        self.word(Word::Alloca)?;
        self.ty(ty)?;
        self.alloca_count(count)?;
        self.align(align)
    }

    fn alloca_count(&mut self, count: &Option<TypedCount>) -> Result<(), NoMemory>
        ensures { OnOk result (self.new ≡ self.old ++ alloca_count_marks count.now) }
    {
        match count {
            Some(count) => {
                self.comma()?;
                self.count(count)
            }
            None => Ok(()),
        }
    }

    fn load(&mut self, ty: &IrType, from: &TypedOperand, align: Option<u32>) -> Result<(), NoMemory>
        ensures { OnOk result (self.new ≡ self.old ++ op_marks (ops.Load ty.now from.now align)) }
    {
        self.word(Word::Load)?;
        self.ty(ty)?;
        self.comma()?;
        self.typed(from)?;
        self.align(align)
    }

    fn store(
        &mut self,
        value: &TypedOperand,
        to: &TypedOperand,
        align: Option<u32>,
    ) -> Result<(), NoMemory>
        ensures { OnOk result (self.new ≡ self.old ++ op_marks (ops.Store value.now to.now align)) }
    {
        self.word(Word::Store)?;
        self.typed(value)?;
        self.comma()?;
        self.typed(to)?;
        self.align(align)
    }

    fn gep(
        &mut self,
        ty: &IrType,
        base: &TypedOperand,
        indices: &[TypedOperand],
    ) -> Result<(), NoMemory>
        ensures { OnOk result (self.new ≡ self.old ++ op_marks (ops.Gep ty.now base.now indices.now)) }
    {
        self.word(Word::GetElementPtr)?;
        self.ty(ty)?;
        self.comma()?;
        self.typed(base)?;
        self.values_after_commas(indices)
    }

    fn values_after_commas(&mut self, values: &[TypedOperand]) -> Result<(), NoMemory>
        ensures { OnOk result (self.new ≡ self.old ++ after_commas (map typed_marks values.now)) }
    {
        for v in values {
            self.comma()?;
            self.typed(v)?;
        }
        Ok(())
    }

    fn phi(&mut self, ty: &IrType, pairs: &[Pair]) -> Result<(), NoMemory>
        ensures { OnOk result (self.new ≡ self.old ++ op_marks (ops.Phi ty.now pairs.now)) }
    {
        self.word(Word::Phi)?;
        self.ty(ty)?;
        self.pairs(pairs)
    }

    fn pairs(&mut self, pairs: &[Pair]) -> Result<(), NoMemory>
        ensures { OnOk result (self.new ≡ self.old ++ separated (map pair_marks pairs.now)) }
    {
        match pairs {
            [] => Ok(()),
            [first, more @ ..] => {
                self.pair(first)?;
                self.pairs_after_commas(more)
            }
        }
    }

    fn pairs_after_commas(&mut self, pairs: &[Pair]) -> Result<(), NoMemory>
        ensures { OnOk result (self.new ≡ self.old ++ after_commas (map pair_marks pairs.now)) }
    {
        for pair in pairs {
            self.comma()?;
            self.pair(pair)?;
        }
        Ok(())
    }

    fn pair(&mut self, pair: &Pair) -> Result<(), NoMemory>
        ensures { OnOk result (self.new ≡ self.old ++ pair_marks pair.now) }
    {
        self.push(Mark::Spaced(Sign::OpenSquare))?;
        self.value(&pair.value)?;
        self.comma()?;
        self.push(Mark::Local(pair.from))?;
        self.push(Mark::Spaced(Sign::CloseSquare))
    }

    fn call(&mut self, ty: &IrType, callee: SymId, args: &[TypedOperand]) -> Result<(), NoMemory>
        ensures { OnOk result (self.new ≡ self.old ++ op_marks (ops.Call ty.now callee args.now)) }
    {
        self.word(Word::Call)?;
        self.ty(ty)?;
        self.push(Mark::Symbol(callee))?;
        self.arguments(args)
    }

    fn arguments(&mut self, args: &[TypedOperand]) -> Result<(), NoMemory>
        ensures { OnOk result (self.new ≡ self.old ++ in_round (map typed_marks args.now)) }
    {
        self.push(Mark::Joined(Sign::OpenRound))?;
        self.values(args)?;
        self.push(Mark::Closing(Sign::CloseRound))
    }

    fn values(&mut self, values: &[TypedOperand]) -> Result<(), NoMemory>
        ensures { OnOk result (self.new ≡ self.old ++ separated (map typed_marks values.now)) }
    {
        match values {
            [] => Ok(()),
            [first, more @ ..] => {
                self.typed(first)?;
                self.values_after_commas(more)
            }
        }
    }
}
