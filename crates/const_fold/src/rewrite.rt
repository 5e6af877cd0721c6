ghost use Rattle.std.specs.Prelude.{◌≡◌, IfOk, map};
ghost use Rattle.std.specs.List.{fold, filter};
ghost use Rattle.oi_base.specs.declared.words.Width.TheVariants.{W1};
ghost use Rattle.const_fold.specs.Operands.{with_operand, end_with_operands, word_in};
ghost use Rattle.const_fold.specs.FoldConstants.{known, is_variable, with_word, address_of, choice_of, instr_with};
ghost use Rattle.const_fold.specs.FactTables.{facts_in};

use crate::fact_table::FactTable;
use crate::operands::word_in;
use crate::results::{chosen, with_term};
use ir_core::{Args, Cases, FlatEnd, FlatInstr, FlatOp, Term, Terms};
use oi_base::{RegId, Width};
use std::alloc::{AllocError, Global};

/// A term with what is known in its operand's place.
fn known_term(facts: &FactTable, term: &Term) -> Term
    ensures { result ≡ with_operand (known (facts_in facts.now)) term.now }
{
    Term {
        operand: facts.known(term.operand),
        width: term.width,
        stride: term.stride,
    }
}

/// A constant part in bytes, with the terms added whose operands are words, with what is known in their places.
fn constant_part(facts: &FactTable, k: u32, terms: &[Term]) -> u32
    ensures { result ≡ fold with_word k (map (with_operand (known (facts_in facts.now))) terms.now) }
{
    let mut part = k;
    for term in terms {
        if let Some(a) = word_in(term.width, facts.known(term.operand)) {
            part = with_term(part, *term, a);
        }
    }
    part
}

/// The terms that are no words, with what is known in their operands' places.
fn variable_terms(alloc: Global, facts: &FactTable, terms: &[Term]) -> Result<Terms, AllocError>
    ensures { IfOk result (λ ts. ts ≡ filter is_variable (map (with_operand (known (facts_in facts.now))) terms.now)) }
{
    let mut variable = Terms::new(alloc);
    for term in terms {
        let term = known_term(facts, term);
        if word_in(term.width, term.operand).is_none() {
            variable.push(term)?;
        }
    }
    Ok(variable)
}

/// An address; without terms and with constant part 0 it is a copy of its base.
fn address_of(d: RegId, base: FlatOp, k: u32, terms: Terms) -> FlatInstr
    ensures { result ≡ address_of d base k terms }
{
    if terms.is_empty() && k == 0 {
        FlatInstr::Copy(d, base)
    } else {
        FlatInstr::Gep(d, base, k, terms)
    }
}

/// A choice; on a word it is a copy of the chosen operand.
fn choice_of(d: RegId, c: FlatOp, a: FlatOp, b: FlatOp) -> FlatInstr
    ensures { result ≡ choice_of d (word_in W1 c) c a b }
{
    match word_in(Width::W1, c) {
        Some(z) => FlatInstr::Copy(d, chosen(z, a, b)),
        None => FlatInstr::Select(d, c, a, b),
    }
}

/// Arguments with what is known in their places.
fn known_args(alloc: Global, facts: &FactTable, args: &[FlatOp]) -> Result<Args, AllocError>
    ensures { IfOk result (λ os. os ≡ map (known (facts_in facts.now)) args.now) }
{
    let mut new = Args::new(alloc);
    for arg in args {
        new.push(facts.known(*arg))?;
    }
    Ok(new)
}

/// An instruction with what is known in its operands' places, in short form.
pub fn instr_with(alloc: Global, facts: &FactTable, i: &FlatInstr) -> Result<FlatInstr, AllocError>
    ensures { IfOk result (λ new. new ≡ instr_with (facts_in facts.now) i.now) }
{
    Ok(match i {
        FlatInstr::Bin(d, op, w, a, b) => {
            FlatInstr::Bin(*d, *op, *w, facts.known(*a), facts.known(*b))
        }
        FlatInstr::Icmp(d, c, s, a, b) => {
            FlatInstr::Icmp(*d, *c, *s, facts.known(*a), facts.known(*b))
        }
        FlatInstr::Select(d, c, a, b) => {
            choice_of(*d, facts.known(*c), facts.known(*a), facts.known(*b))
        }
        FlatInstr::Cast(d, c, from, to, a) => {
            FlatInstr::Cast(*d, *c, *from, *to, facts.known(*a))
        }
        FlatInstr::Copy(d, a) => FlatInstr::Copy(*d, facts.known(*a)),
        FlatInstr::Alloca(d, size, align) => FlatInstr::Alloca(*d, *size, *align),
        FlatInstr::Load(d, s, align, a) => FlatInstr::Load(*d, *s, *align, facts.known(*a)),
        FlatInstr::Store(s, align, v, a) => {
            FlatInstr::Store(*s, *align, facts.known(*v), facts.known(*a))
        }
        FlatInstr::Gep(d, a, k, terms) => {
            let part = constant_part(facts, *k, terms.as_slice());
            let variable = variable_terms(alloc, facts, terms.as_slice())?;
            address_of(*d, facts.known(*a), part, variable)
        }
        FlatInstr::Call(d, f, args) => {
            FlatInstr::Call(*d, *f, known_args(alloc, facts, args.as_slice())?)
        }
        FlatInstr::Put(d, a) => FlatInstr::Put(*d, facts.known(*a)),
        FlatInstr::Get(d) => FlatInstr::Get(*d),
        FlatInstr::Exit(a) => FlatInstr::Exit(facts.known(*a)),
    })
}

/// A terminator with what is known in its operand's place.
pub fn end_with(facts: &FactTable, end: FlatEnd) -> FlatEnd
    ensures { result ≡ end_with_operands (known (facts_in facts.now)) end }
{
    match end {
        FlatEnd::Ret(Some(a)) => FlatEnd::Ret(Some(facts.known(a))),
        FlatEnd::Cond(c, t, f) => FlatEnd::Cond(facts.known(c), t, f),
        FlatEnd::Switch(a, w, cases, other) => { FlatEnd::Switch(facts.known(a), w, cases, other) }
        end => end,
    }
}
