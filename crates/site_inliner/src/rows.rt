ghost use Rattle.std.specs.Prelude.{◌≡◌, ◌≤◌, ◌*◌, ◌%◌, Some, None, map, IfOk};
ghost use Rattle.std.specs.Option.{option_map};
ghost use Rattle.ir_core.specs.declared.limits.TheConstants.{LARGEST};
ghost use Rattle.ir_core.specs.Constants.{aligned_as};
ghost use Rattle.ir_core.specs.Instructions.{first, call, count_of};
ghost use Rattle.ir_core.specs.Sizes.{size};
ghost use Rattle.ir_core.specs.declared.op.Op.TheVariants as ops;
ghost use Rattle.site_inliner.specs.Measured.{IsMeasured, IsMeasuredValue, AreMeasured, IsMeasuredOp};
ghost use Rattle.site_inliner.specs.Parts.{reg_in, typed_in, row_in, store_in, gep_in, instr_row};

use crate::locals::Locals;
use crate::operands::{scalar_of, width_of};
use ir_core::{
    Args, BinOp, CastOp, Cmp, FlatInstr, FlatOp, Instr, IrType, LocalId, Module, Op, Operand,
    Short, SymId, TypedCount, TypedOperand,
};
use module_rules::{align_or_least, size_up_to};
use oi_base::{FuncId, NoMemory, RegId};
use std::alloc::Global;

impl<'a> Locals<'a> {
    /// The row of an instruction, but of a phi.
    pub fn row(&self, alloc: Global, instr: &Instr) -> Result<Option<FlatInstr>, NoMemory>
        requires measured { IsMeasuredOp self.now.source.types.defs instr.now.op }
        ensures { IfOk result (λ row. row ≡ instr_row self.now instr.now) }
    {
        match instr.result {
            Some(name) => self.row_with_result(alloc, name, &instr.op),
            None => self.row_without_result(alloc, &instr.op),
        }
    }

    fn row_without_result(&self, alloc: Global, op: &Op) -> Result<Option<FlatInstr>, NoMemory>
        requires measured { IsMeasuredOp self.now.source.types.defs op.now }
        ensures { IfOk result (λ row. row ≡ row_in self.now None op.now) }
    {
        match op {
            Op::Store(a, p, stated) => Ok(Some(self.store(a, p, *stated))),
            Op::Call(_, name, args) => Ok(Some(self.call(alloc, None, *name, args.as_slice())?)),
            _ => Ok(None),
        }
    }

    fn row_with_result(
        &self,
        alloc: Global,
        name: LocalId,
        op: &Op,
    ) -> Result<Option<FlatInstr>, NoMemory>
        requires measured { IsMeasuredOp self.now.source.types.defs op.now }
        ensures { IfOk result (λ row. row ≡ row_in self.now (Some name) op.now) }
    {
        match op {
            Op::Bin(kind, t, a, b) => Ok(Some(self.bin(name, *kind, t, a, b))),
            Op::Icmp(test, t, a, b) => Ok(Some(self.icmp(name, *test, t, a, b))),
            Op::Select(c, a, b) => Ok(Some(self.select(name, c, a, b))),
            Op::Cast(kind, a, t) => Ok(Some(self.cast(name, *kind, a, t))),
            Op::Alloca(t, count, stated) => Ok(Some(self.alloca(name, t, count, *stated))),
            Op::Load(t, a, stated) => Ok(Some(self.load(name, t, a, *stated))),
            Op::Store(a, p, stated) => Ok(Some(self.store(a, p, *stated))),
            Op::Gep(t, a, indices) => Ok(Some(self.gep(alloc, name, t, a, indices.as_slice())?)),
            Op::Phi(_, _) => Ok(None),
            Op::Call(_, callee, args) => {
                Ok(Some(self.call(alloc, Some(name), *callee, args.as_slice())?))
            }
        }
    }

    fn bin(&self, name: LocalId, kind: BinOp, t: &IrType, a: &Operand, b: &Operand) -> FlatInstr
        requires left { IsMeasuredValue self.now.source.types.defs a.now }
        requires right { IsMeasuredValue self.now.source.types.defs b.now }
        ensures { Some result ≡ row_in self.now (Some name) (ops.Bin kind t.now a.now b.now) }
    {
        FlatInstr::Bin(
            self.register(name),
            kind,
            width_of(t),
            self.operand(t, a),
            self.operand(t, b),
        )
    }

    fn icmp(&self, name: LocalId, test: Cmp, t: &IrType, a: &Operand, b: &Operand) -> FlatInstr
        requires left { IsMeasuredValue self.now.source.types.defs a.now }
        requires right { IsMeasuredValue self.now.source.types.defs b.now }
        ensures { Some result ≡ row_in self.now (Some name) (ops.Icmp test t.now a.now b.now) }
    {
        FlatInstr::Icmp(
            self.register(name),
            test,
            scalar_of(t),
            self.operand(t, a),
            self.operand(t, b),
        )
    }

    fn select(
        &self,
        name: LocalId,
        c: &TypedOperand,
        a: &TypedOperand,
        b: &TypedOperand,
    ) -> FlatInstr
        requires condition { IsMeasuredValue self.now.source.types.defs c.now.value }
        requires left { IsMeasuredValue self.now.source.types.defs a.now.value }
        requires right { IsMeasuredValue self.now.source.types.defs b.now.value }
        ensures { Some result ≡ row_in self.now (Some name) (ops.Select c.now a.now b.now) }
    {
        FlatInstr::Select(
            self.register(name),
            self.typed(c),
            self.typed(a),
            self.typed(b),
        )
    }

    fn cast(&self, name: LocalId, kind: CastOp, a: &TypedOperand, t: &IrType) -> FlatInstr
        requires value { IsMeasuredValue self.now.source.types.defs a.now.value }
        ensures { Some result ≡ row_in self.now (Some name) (ops.Cast kind a.now t.now) }
    {
        FlatInstr::Cast(
            self.register(name),
            kind,
            width_of(&a.ty),
            width_of(t),
            self.typed(a),
        )
    }

    fn alloca(
        &self,
        name: LocalId,
        t: &IrType,
        count: &Option<TypedCount>,
        stated: Option<u32>,
    ) -> FlatInstr
        requires few { size self.now.source.types.defs t.now * count_of count.now ≤ LARGEST }
        ensures { Some result ≡ row_in self.now (Some name) (ops.Alloca t.now count.now stated) }
    {
        FlatInstr::Alloca(
            self.register(name),
            alloca_size(self.source(), t, count),
            aligned_as(self.source(), stated, t),
        )
    }

    fn load(&self, name: LocalId, t: &IrType, a: &TypedOperand, stated: Option<u32>) -> FlatInstr
        requires address { IsMeasuredValue self.now.source.types.defs a.now.value }
        ensures { Some result ≡ row_in self.now (Some name) (ops.Load t.now a.now stated) }
    {
        FlatInstr::Load(
            self.register(name),
            scalar_of(t),
            aligned_as(self.source(), stated, t),
            self.typed(a),
        )
    }

    fn store(&self, a: &TypedOperand, p: &TypedOperand, stated: Option<u32>) -> FlatInstr
        requires value { IsMeasuredValue self.now.source.types.defs a.now.value }
        requires address { IsMeasuredValue self.now.source.types.defs p.now.value }
        ensures { result ≡ store_in self.now a.now p.now stated }
    {
        FlatInstr::Store(
            scalar_of(&a.ty),
            aligned_as(self.source(), stated, &a.ty),
            self.typed(a),
            self.typed(p),
        )
    }

    fn gep(
        &self,
        alloc: Global,
        name: LocalId,
        t: &IrType,
        a: &TypedOperand,
        indices: &[TypedOperand],
    ) -> Result<FlatInstr, NoMemory>
        requires measured { IsMeasured self.now.source.types.defs t.now }
        requires base { IsMeasuredValue self.now.source.types.defs a.now.value }
        requires indices { AreMeasured self.now.source.types.defs indices.now }
        ensures { IfOk result (λ row. row ≡ gep_in self.now name t.now a.now indices.now) }
    {
        let path = self.path(alloc, t, indices)?;
        Ok(FlatInstr::Gep(self.register(name), self.typed(a), path.bytes, path.terms))
    }

    /// A call of a function that the module defines, or of an external.
    fn call(
        &self,
        alloc: Global,
        name: Option<LocalId>,
        callee: SymId,
        args: &[TypedOperand],
    ) -> Result<FlatInstr, NoMemory>
        requires measured { AreMeasured self.now.source.types.defs args.now }
        ensures { IfOk result (λ row. row ≡ call self.now.source (option_map (reg_in self.now) name) callee (map (typed_in self.now) args.now)) }
    {
        let args = self.args(alloc, args)?;
        Ok(self.call_of(self.result_register(name), callee, args))
    }

    fn result_register(&self, name: Option<LocalId>) -> Option<RegId>
        ensures { result ≡ option_map (reg_in self.now) name }
    {
        match name {
            Some(name) => Some(self.register(name)),
            None => None,
        }
    }

    fn args(&self, alloc: Global, args: &[TypedOperand]) -> Result<Args, NoMemory>
        requires measured { AreMeasured self.now.source.types.defs args.now }
        ensures { IfOk result (λ values. values ≡ map (typed_in self.now) args.now) }
    {
        let mut values = Short::new(alloc);
        for arg in args {
            values.push(self.typed(arg))?;
        }
        Ok(values)
    }

    fn call_of(&self, d: Option<RegId>, callee: SymId, args: Args) -> FlatInstr
        ensures { result ≡ call self.now.source d callee args }
    {
        if self.is_defined(callee) {
            return FlatInstr::Call(d, FuncId(self.callee(callee)), args);
        }
        let text = self.text(callee);
        if text == b"putchar".as_slice() {
            FlatInstr::Put(d, first(args.as_slice()))
        } else if text == b"getchar".as_slice() {
            FlatInstr::Get(d)
        } else if text == b"exit".as_slice() {
            FlatInstr::Exit(first(args.as_slice()))
        } else {
            FlatInstr::Call(d, FuncId(self.callee(callee)), args)
        }
    }
}

fn first(args: &[FlatOp]) -> FlatOp
    ensures { result ≡ first args.now }
{
    match args {
        [a, ..] => *a,
        [] => FlatOp::Poison,
    }
}

/// The stated alignment, else the type's.
fn aligned_as(m: &Module, stated: Option<u32>, t: &IrType) -> u32
    ensures { result ≡ aligned_as m.now.types.defs stated t.now }
{
    match stated {
        Some(align) => align,
        None => align_or_least(m, t),
    }
}

/// How many bytes an alloca takes.
#[tactic(auto, using(crate::proofs::SameOperands::times))]
fn alloca_size(m: &Module, t: &IrType, count: &Option<TypedCount>) -> u32
    requires { size m.now.types.defs t.now * count_of count.now ≤ LARGEST }
    ensures { result ≡ size m.now.types.defs t.now * count_of count.now }
{
    size_up_to(m, t).wrapping_mul(count_of(count))
}

/// The stated count of an alloca, modulo two to the 32, else one.
fn count_of(count: &Option<TypedCount>) -> u32
    ensures { result ≡ count_of count.now % 4294967296 }
{
    match count {
        Some(count) => (count.count.unsigned_abs() % (1 << 32)) as u32,
        None => 1,
    }
}
