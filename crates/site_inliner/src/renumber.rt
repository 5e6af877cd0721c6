ghost use Rattle.std.specs.Prelude.{◌≡◌, map, slice_index_or, IfOk};
ghost use Rattle.std.specs.Option.{option_map};
ghost use Rattle.ir_core.specs.Plain.{other_reg, other_block, other_operand, other_term, other_instr, other_entry, other_phi, other_case, other_end};
ghost use Rattle.site_inliner.specs.Placed.{numbers_by};

use ir_core::{Args, Case, Cases, Entries, Entry, FlatEnd, FlatInstr, FlatOp, Phi, Term, Terms};
use oi_base::{BlockId, NoMemory, RegId};
use std::alloc::Global;

/// Other numbers for registers and blocks. What is not there has the number `regs` or `blocks`.
#[derive(Clone, Copy)]
pub struct Renumber<'a> {
    pub reg_table: &'a [u32],
    pub block_table: &'a [u32],
    pub regs: u32,
    pub blocks: u32,
}

fn at_or(table: &[u32], at: u32, other: u32) -> u32
    ensures { result ≡ slice_index_or table.now at other }
{
    match table.get(at as usize) {
        Some(number) => *number,
        None => other,
    }
}

impl<'a> Renumber<'a> {
    pub fn reg(&self, r: RegId) -> RegId
        ensures { result ≡ other_reg (numbers_by self.now.reg_table.now self.now.block_table.now self.now.regs self.now.blocks) r }
    {
        RegId(at_or(self.reg_table, r.0, self.regs))
    }

    pub fn block(&self, b: BlockId) -> BlockId
        ensures { result ≡ other_block (numbers_by self.now.reg_table.now self.now.block_table.now self.now.regs self.now.blocks) b }
    {
        BlockId(at_or(self.block_table, b.0, self.blocks))
    }

    pub fn operand(&self, o: FlatOp) -> FlatOp
        ensures { result ≡ other_operand (numbers_by self.now.reg_table.now self.now.block_table.now self.now.regs self.now.blocks) o }
    {
        match o {
            FlatOp::Reg(r) => FlatOp::Reg(self.reg(r)),
            _ => o,
        }
    }

    fn result(&self, d: Option<RegId>) -> Option<RegId>
        ensures { result ≡ option_map (other_reg (numbers_by self.now.reg_table.now self.now.block_table.now self.now.regs self.now.blocks)) d }
    {
        match d {
            Some(r) => Some(self.reg(r)),
            None => None,
        }
    }

    fn terms(&self, alloc: Global, terms: &[Term]) -> Result<Terms, NoMemory>
        ensures { IfOk result (λ ts. ts ≡ map (other_term (numbers_by self.now.reg_table.now self.now.block_table.now self.now.regs self.now.blocks)) terms.now) }
    {
        let mut new = Terms::new(alloc);
        for term in terms {
            new.push(Term {
                operand: self.operand(term.operand),
                width: term.width,
                stride: term.stride,
            })?;
        }
        Ok(new)
    }

    fn args(&self, alloc: Global, args: &[FlatOp]) -> Result<Args, NoMemory>
        ensures { IfOk result (λ os. os ≡ map (other_operand (numbers_by self.now.reg_table.now self.now.block_table.now self.now.regs self.now.blocks)) args.now) }
    {
        let mut new = Args::new(alloc);
        for arg in args {
            new.push(self.operand(*arg))?;
        }
        Ok(new)
    }

    /// An instruction under the other numbers.
    pub fn instr(&self, alloc: Global, i: &FlatInstr) -> Result<FlatInstr, NoMemory>
        ensures { IfOk result (λ new. new ≡ other_instr (numbers_by self.now.reg_table.now self.now.block_table.now self.now.regs self.now.blocks) i.now) }
    {
        Ok(match i {
            FlatInstr::Bin(d, op, w, a, b) => {
                FlatInstr::Bin(self.reg(*d), *op, *w, self.operand(*a), self.operand(*b))
            }
            FlatInstr::Icmp(d, c, s, a, b) => {
                FlatInstr::Icmp(self.reg(*d), *c, *s, self.operand(*a), self.operand(*b))
            }
            FlatInstr::Select(d, c, a, b) => FlatInstr::Select(
                self.reg(*d),
                self.operand(*c),
                self.operand(*a),
                self.operand(*b),
            ),
            FlatInstr::Cast(d, c, from, to, a) => {
                FlatInstr::Cast(self.reg(*d), *c, *from, *to, self.operand(*a))
            }
            FlatInstr::Copy(d, a) => FlatInstr::Copy(self.reg(*d), self.operand(*a)),
            FlatInstr::Alloca(d, size, align) => FlatInstr::Alloca(self.reg(*d), *size, *align),
            FlatInstr::Load(d, s, align, a) => {
                FlatInstr::Load(self.reg(*d), *s, *align, self.operand(*a))
            }
            FlatInstr::Store(s, align, v, a) => {
                FlatInstr::Store(*s, *align, self.operand(*v), self.operand(*a))
            }
            FlatInstr::Gep(d, a, k, terms) => {
                let terms = self.terms(alloc, terms.as_slice())?;
                FlatInstr::Gep(self.reg(*d), self.operand(*a), *k, terms)
            }
            FlatInstr::Call(d, f, args) => {
                let args = self.args(alloc, args.as_slice())?;
                FlatInstr::Call(self.result(*d), *f, args)
            }
            FlatInstr::Put(d, a) => FlatInstr::Put(self.result(*d), self.operand(*a)),
            FlatInstr::Get(d) => FlatInstr::Get(self.result(*d)),
            FlatInstr::Exit(a) => FlatInstr::Exit(self.operand(*a)),
        })
    }

    /// A phi under the other numbers.
    pub fn phi(&self, alloc: Global, phi: &Phi) -> Result<Phi, NoMemory>
        ensures { IfOk result (λ new. new ≡ other_phi (numbers_by self.now.reg_table.now self.now.block_table.now self.now.regs self.now.blocks) phi.now) }
    {
        let entries = self.entries(alloc, phi.entries.as_slice())?;
        Ok(Phi {
            reg: self.reg(phi.reg),
            entries,
        })
    }

    fn entries(&self, alloc: Global, entries: &[Entry]) -> Result<Entries, NoMemory>
        ensures { IfOk result (λ es. es ≡ map (other_entry (numbers_by self.now.reg_table.now self.now.block_table.now self.now.regs self.now.blocks)) entries.now) }
    {
        let mut new = Entries::new(alloc);
        for entry in entries {
            new.push(Entry {
                from: self.block(entry.from),
                value: self.operand(entry.value),
            })?;
        }
        Ok(new)
    }

    fn cases(&self, alloc: Global, cases: &[Case]) -> Result<Cases, NoMemory>
        ensures { IfOk result (λ cs. cs ≡ map (other_case (numbers_by self.now.reg_table.now self.now.block_table.now self.now.regs self.now.blocks)) cases.now) }
    {
        let mut new = Cases::new(alloc);
        for case in cases {
            new.push(Case {
                word: case.word,
                to: self.block(case.to),
            })?;
        }
        Ok(new)
    }

    /// The end of a block under the other numbers.
    pub fn end(&self, alloc: Global, end: &FlatEnd) -> Result<FlatEnd, NoMemory>
        ensures { IfOk result (λ new. new ≡ other_end (numbers_by self.now.reg_table.now self.now.block_table.now self.now.regs self.now.blocks) end.now) }
    {
        match end {
            FlatEnd::Ret(Some(a)) => Ok(FlatEnd::Ret(Some(self.operand(*a)))),
            FlatEnd::Ret(None) => Ok(FlatEnd::Ret(None)),
            FlatEnd::Br(to) => Ok(FlatEnd::Br(self.block(*to))),
            FlatEnd::Cond(c, then, other) => {
                Ok(FlatEnd::Cond(self.operand(*c), self.block(*then), self.block(*other)))
            }
            FlatEnd::Switch(a, w, cases, other) => {
                let cases = self.cases(alloc, cases.as_slice())?;
                Ok(FlatEnd::Switch(self.operand(*a), *w, cases, self.block(*other)))
            }
            FlatEnd::Unreachable => Ok(FlatEnd::Unreachable),
        }
    }
}
