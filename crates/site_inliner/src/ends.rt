ghost use Rattle.std.specs.Prelude.{◌≡◌, Some, None, All, map, IfOk};
ghost use Rattle.ir_core.specs.declared.op.Pair as of_pair;
ghost use Rattle.ir_core.specs.declared.op.SwitchCase as of_case;
ghost use Rattle.ir_core.specs.declared.flat.FlatEnd.TheVariants.{Switch};
ghost use Rattle.ir_core.specs.Constants.{width_of};
ghost use Rattle.site_inliner.specs.Measured.{IsMeasuredValue, IsMeasuredOp, IsMeasuredEnd};
ghost use Rattle.site_inliner.specs.Parts.{block_in, typed_in, phi_in, instr_phi, entry_in, case_in, end_in};

use crate::locals::Locals;
use crate::operands::{field_number, width_of};
use ir_core::{
    Case, Cases, End, Entries, Entry, FlatEnd, Instr, IrType, LocalId, Op, Pair, Phi, Short,
    SwitchCase, TypedOperand,
};
use oi_base::{Items, NoMemory};
use std::alloc::Global;

impl<'a> Locals<'a> {
    /// The phi that an instruction is.
    pub fn phi(&self, alloc: Global, instr: &Instr) -> Result<Option<Phi>, NoMemory>
        requires measured { IsMeasuredOp self.now.source.types.defs instr.now.op }
        ensures { IfOk result (λ phi. phi ≡ instr_phi self.now instr.now) }
    {
        match instr.result {
            Some(name) => self.phi_with_result(alloc, name, &instr.op),
            None => Ok(None),
        }
    }

    fn phi_with_result(
        &self,
        alloc: Global,
        name: LocalId,
        op: &Op,
    ) -> Result<Option<Phi>, NoMemory>
        requires measured { IsMeasuredOp self.now.source.types.defs op.now }
        ensures { IfOk result (λ phi. phi ≡ phi_in self.now (Some name) op.now) }
    {
        match op {
            Op::Phi(t, pairs) => {
                let entries = self.entries(alloc, t, pairs.as_slice())?;
                let reg = self.register(name);
                Ok(Some(Phi { reg, entries }))
            }
            _ => Ok(None),
        }
    }

    fn entries(&self, alloc: Global, t: &IrType, pairs: &[Pair]) -> Result<Entries, NoMemory>
        requires measured { All (λ (e : of_pair.Pair). IsMeasuredValue self.now.source.types.defs e.value) pairs.now }
        ensures { IfOk result (λ entries. entries ≡ map (entry_in self.now t.now) pairs.now) }
    {
        let mut entries = Short::new(alloc);
        for pair in pairs {
            entries.push(self.entry(t, pair))?;
        }
        Ok(entries)
    }

    fn entry(&self, t: &IrType, pair: &Pair) -> Entry
        requires measured { IsMeasuredValue self.now.source.types.defs pair.now.value }
        ensures { result ≡ entry_in self.now t.now pair.now }
    {
        Entry {
            from: self.block(pair.from),
            value: self.operand(t, &pair.value),
        }
    }

    /// The end of a block.
    pub fn end(&self, alloc: Global, end: &End) -> Result<FlatEnd, NoMemory>
        requires measured { IsMeasuredEnd self.now.source.types.defs end.now }
        ensures { IfOk result (λ e. e ≡ end_in self.now end.now) }
    {
        match end {
            End::Ret(Some(a)) => Ok(FlatEnd::Ret(Some(self.typed(a)))),
            End::Ret(None) => Ok(FlatEnd::Ret(None)),
            End::Br(to) => Ok(FlatEnd::Br(self.block(*to))),
            End::Cond(c, then, other) => Ok(FlatEnd::Cond(
                self.typed(c),
                self.block(*then),
                self.block(*other),
            )),
            End::Switch(a, other, cases) => {
                let cases = self.cases(alloc, cases.as_slice())?;
                Ok(self.switch(a, *other, cases))
            }
            End::Unreachable => Ok(FlatEnd::Unreachable),
        }
    }

    fn switch(&self, a: &TypedOperand, other: LocalId, cases: Cases) -> FlatEnd
        requires measured { IsMeasuredValue self.now.source.types.defs a.now.value }
        ensures { result ≡ Switch (typed_in self.now a.now) (width_of a.now.ty) cases (block_in self.now other) }
    {
        FlatEnd::Switch(self.typed(a), width_of(&a.ty), cases, self.block(other))
    }

    fn cases(&self, alloc: Global, source: &[SwitchCase]) -> Result<Cases, NoMemory>
        requires measured { All (λ (c : of_case.SwitchCase). IsMeasuredValue self.now.source.types.defs c.value.value) source.now }
        ensures { IfOk result (λ cases. cases ≡ map (case_in self.now) source.now) }
    {
        let mut cases = Items::new(alloc);
        for case in source {
            cases.push(self.case(case))?;
        }
        Ok(cases)
    }

    #[tactic(auto, using(crate::proofs::SameOperands::same_number))]
    fn case(&self, case: &SwitchCase) -> Case
        requires measured { IsMeasuredValue self.now.source.types.defs case.now.value.value }
        ensures { result ≡ case_in self.now case.now }
    {
        Case {
            word: field_number(self.typed(&case.value)),
            to: self.block(case.to),
        }
    }
}
