ghost use Rattle.std.specs.Prelude.{◌≡◌, ◌<◌, ◌∷◌, [], ◌++◌, OnSome, map, slice_get};
ghost use Rattle.std.specs.Option.{option_map};
ghost use Rattle.ir_core.specs.Formed.{result_of, used_by, used_at_end, targets};

use crate::flat::{Case, FlatEnd, FlatInstr, FlatOp, Term};
use crate::nth::{of_one, of_three, of_two};
use oi_base::{BlockId, RegId};

impl FlatInstr {
    /// The register that it writes.
    pub fn result(&self) -> Option<RegId>
        ensures { result ≡ result_of self.now }
    {
        match self {
            FlatInstr::Bin(d, _, _, _, _)
            | FlatInstr::Icmp(d, _, _, _, _)
            | FlatInstr::Select(d, _, _, _)
            | FlatInstr::Cast(d, _, _, _, _)
            | FlatInstr::Copy(d, _)
            | FlatInstr::Alloca(d, _, _)
            | FlatInstr::Load(d, _, _, _)
            | FlatInstr::Gep(d, _, _, _) => Some(*d),
            FlatInstr::Call(d, _, _) | FlatInstr::Put(d, _) | FlatInstr::Get(d) => *d,
            FlatInstr::Store(_, _, _, _) | FlatInstr::Exit(_) => None,
        }
    }

    /// The operand at a position, in the order of the variant's fields; those of a `Gep` are the base, then the terms'.
    pub fn operand(&self, at: usize) -> Option<FlatOp>
        ensures value { result ≡ slice_get (used_by self.now) at }
        ensures countable { OnSome result (at < usize.MAX) }
    {
        match self {
            FlatInstr::Bin(_, _, _, a, b)
            | FlatInstr::Icmp(_, _, _, a, b)
            | FlatInstr::Store(_, _, a, b) => of_two(at, a, b).copied(),
            FlatInstr::Select(_, c, a, b) => of_three(at, c, a, b).copied(),
            FlatInstr::Cast(_, _, _, _, a)
            | FlatInstr::Copy(_, a)
            | FlatInstr::Load(_, _, _, a)
            | FlatInstr::Put(_, a)
            | FlatInstr::Exit(a) => of_one(at, a).copied(),
            FlatInstr::Alloca(_, _, _) | FlatInstr::Get(_) => None,
            FlatInstr::Gep(_, base, _, _) if at == 0 => Some(*base),
            FlatInstr::Gep(_, _, _, terms) => term_at(terms.as_slice(), at - 1),
            FlatInstr::Call(_, _, args) => args.as_slice().get(at).copied(),
        }
    }
}

impl FlatEnd {
    /// The operand at a position.
    pub fn operand(&self, at: usize) -> Option<FlatOp>
        ensures value { result ≡ slice_get (used_at_end self.now) at }
        ensures countable { OnSome result (at < usize.MAX) }
    {
        match self {
            FlatEnd::Ret(None) | FlatEnd::Br(_) | FlatEnd::Unreachable => None,
            FlatEnd::Ret(Some(a)) | FlatEnd::Cond(a, _, _) | FlatEnd::Switch(a, _, _, _) => {
                of_one(at, a).copied()
            }
        }
    }

    /// The successor at a position: of a switch those of the cases, then the default.
    pub fn successor(&self, at: usize) -> Option<BlockId>
        ensures value { option_map (λ b. b.0) result ≡ slice_get (targets self.now) at }
        ensures countable { OnSome result (at < usize.MAX) }
    {
        match self {
            FlatEnd::Ret(_) | FlatEnd::Unreachable => None,
            FlatEnd::Br(to) => of_one(at, to).copied(),
            FlatEnd::Cond(_, then, other) => of_two(at, then, other).copied(),
            FlatEnd::Switch(_, _, cases, other) => to_of_switch(cases.as_slice(), *other, at),
        }
    }
}

fn term_at(terms: &[Term], at: usize) -> Option<FlatOp>
    ensures value { result ≡ slice_get (map (λ t. t.operand) terms.now) at }
{
    match terms.get(at) {
        Some(term) => Some(term.operand),
        None => None,
    }
}

fn to_of_switch(cases: &[Case], other: BlockId, at: usize) -> Option<BlockId>
    ensures value { option_map (λ b. b.0) result ≡ slice_get (map (λ c. c.to.0) cases.now ++ other.0 ∷ []) at }
    ensures countable { OnSome result (at < usize.MAX) }
{
    match cases.get(at) {
        Some(case) => Some(case.to),
        None if at == cases.len() => Some(other),
        None => None,
    }
}
