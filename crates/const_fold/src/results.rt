ghost use Rattle.std.specs.Prelude.{◌≡◌, ◌<◌, Some};
ghost use Rattle.std.specs.List.{fold};
ghost use Rattle.oi_base.specs.Words.{modulus};
ghost use Rattle.const_fold.specs.Operands.{constant};
ghost use Rattle.const_fold.specs.FoldConstants.{bin_fact, test_fact, chosen, choice_fact, converts, cast_fact, with_term, summed, address_fact, instr_fact, known};
ghost use Rattle.const_fold.specs.FactTables.{facts_in};
ghost use Rattle.const_fold.specs.Results.{folded_fact};

use crate::fact_table::FactTable;
use crate::operands::{constant, word_in};
use ir_core::{BinOp, CastOp, Cmp, FlatInstr, FlatOp, Scalar, Term};
use ir_meaning::{Folded, fold_cast, fold_icmp, fold_op};
use oi_base::{Width, sext};

/// The fact of what was folded.
fn folded_fact(folded: Folded) -> Option<FlatOp>
    ensures { result ≡ folded_fact folded }
{
    match folded {
        Folded::Word(x) => Some(FlatOp::Word(x)),
        Folded::Unfolded => None,
    }
}

/// The fact of an operation on two constants.
#[tactic(auto, using(crate::proofs::Folds::op_fact))]
fn bin_fact(op: BinOp, w: Width, a: FlatOp, b: FlatOp) -> Option<FlatOp>
    ensures { result ≡ bin_fact op w a b }
{
    match (word_in(w, a), word_in(w, b)) {
        (Some(x), Some(y)) => folded_fact(fold_op(op, w, x, y)),
        _ => None,
    }
}

/// The fact of a comparison of two words; pointers are not compared.
#[tactic(auto, using(crate::proofs::Folds::icmp_fact))]
fn test_fact(c: Cmp, s: Scalar, a: FlatOp, b: FlatOp) -> Option<FlatOp>
    ensures { result ≡ test_fact c s a b }
{
    match s {
        Scalar::Word(w) => match (word_in(w, a), word_in(w, b)) {
            (Some(x), Some(y)) => folded_fact(fold_icmp(c, w, x, y)),
            _ => None,
        },
        Scalar::Pointer => None,
    }
}

/// Whether a conversion is between widths that it is for.
fn converts(c: CastOp, from: Width, to: Width) -> bool
    ensures { result ≡ converts c from to }
{
    match c {
        CastOp::Zext | CastOp::Sext => from.bits() < to.bits(),
        CastOp::Trunc => to.bits() < from.bits(),
    }
}

/// The fact of a conversion of a word.
#[tactic(auto, using(crate::proofs::Folds::conversion_fact))]
fn cast_fact(c: CastOp, from: Width, to: Width, a: FlatOp) -> Option<FlatOp>
    ensures { result ≡ cast_fact c from to a }
{
    if converts(c, from, to) {
        match word_in(from, a) {
            Some(x) => folded_fact(fold_cast(c, from, to, x)),
            None => None,
        }
    } else {
        None
    }
}

/// What a select gives where its condition is this word.
pub fn chosen(z: u32, a: FlatOp, b: FlatOp) -> FlatOp
    ensures { result ≡ chosen z a b }
{
    if z == 0 { b } else { a }
}

/// The fact of a choice: the condition is a word, and both operands are constants.
fn choice_fact(z: Option<u32>, a: FlatOp, b: FlatOp) -> Option<FlatOp>
    ensures { result ≡ choice_fact z a b }
{
    match (z, constant(a), constant(b)) {
        (Some(z), Some(_), Some(_)) => Some(chosen(z, a, b)),
        _ => None,
    }
}

/// A constant part in bytes, with the term of a word added: the word, sign-extended, times the stride, modulo two to the 32.
pub fn with_term(k: u32, t: Term, a: u32) -> u32
    requires { a < modulus t.width }
    ensures { result ≡ with_term k t a }
{
    k.wrapping_add(sext(t.width, a).wrapping_mul(t.stride))
}

/// A sum in bytes with a term added, where the term is a word.
fn sum_with(facts: &FactTable, sum: Option<u32>, term: &Term) -> Option<u32>
    ensures { result ≡ summed (facts_in facts.now) sum term.now }
{
    match (sum, word_in(term.width, facts.known(term.operand))) {
        (Some(k), Some(a)) => Some(with_term(k, *term, a)),
        _ => None,
    }
}

/// A constant part with all terms added, where they are words.
fn summed(facts: &FactTable, k: u32, terms: &[Term]) -> Option<u32>
    ensures { result ≡ fold (summed (facts_in facts.now)) (Some k) terms.now }
{
    let mut sum = Some(k);
    for term in terms {
        sum = sum_with(facts, sum, term);
    }
    sum
}

/// The fact of an address of a global, moved by a sum in bytes.
fn address_fact(base: FlatOp, sum: Option<u32>) -> Option<FlatOp>
    ensures { result ≡ address_fact base sum }
{
    match (base, sum) {
        (FlatOp::Address(g, o), Some(k)) => Some(FlatOp::Address(g, o.wrapping_add(k))),
        _ => None,
    }
}

/// The constant that an instruction gives, where its operands are constants or have facts.
pub fn instr_fact(facts: &FactTable, i: &FlatInstr) -> Option<FlatOp>
    ensures { result ≡ instr_fact (facts_in facts.now) i.now }
{
    match i {
        FlatInstr::Bin(_, op, w, a, b) => bin_fact(*op, *w, facts.known(*a), facts.known(*b)),
        FlatInstr::Icmp(_, c, s, a, b) => test_fact(*c, *s, facts.known(*a), facts.known(*b)),
        FlatInstr::Select(_, c, a, b) => choice_fact(
            word_in(Width::W1, facts.known(*c)),
            facts.known(*a),
            facts.known(*b),
        ),
        FlatInstr::Cast(_, c, from, to, a) => cast_fact(*c, *from, *to, facts.known(*a)),
        FlatInstr::Copy(_, a) => constant(facts.known(*a)),
        FlatInstr::Gep(_, a, k, terms) => {
            address_fact(facts.known(*a), summed(facts, *k, terms.as_slice()))
        }
        FlatInstr::Alloca(_, _, _)
        | FlatInstr::Load(_, _, _, _)
        | FlatInstr::Store(_, _, _, _)
        | FlatInstr::Call(_, _, _)
        | FlatInstr::Put(_, _)
        | FlatInstr::Get(_)
        | FlatInstr::Exit(_) => None,
    }
}
