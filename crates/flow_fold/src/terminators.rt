ghost use Rattle.std.specs.Prelude.{◌≡◌};
ghost use Rattle.ir_core.specs.Flat.{case_for};
ghost use Rattle.flow_fold.specs.Changes.{change};
ghost use Rattle.flow_fold.specs.FoldBranches.{decided};

use ir_core::{Case, FlatEnd, FlatOp};
use oi_base::BlockId;

/// The block of a word's case, or the default.
fn case_for(z: u32, cases: &[Case], other: BlockId) -> BlockId
    ensures { result ≡ case_for z cases.now other }
{
    for case in cases {
        if case.word == z {
            return case.to;
        }
    }
    other
}

/// The one block to which a terminator goes that is decided: a branch on a word or to two equal blocks, a switch on a word
/// or without cases.
pub fn change(end: &FlatEnd) -> Option<BlockId>
    ensures { result ≡ change end.now }
{
    match end {
        FlatEnd::Cond(FlatOp::Word(z), t, f) => Some(if *z == 0 { *f } else { *t }),
        FlatEnd::Cond(_, t, f) if t.0 == f.0 => Some(*t),
        FlatEnd::Switch(FlatOp::Word(z), _, cases, other) => {
            Some(case_for(*z, cases.as_slice(), *other))
        }
        FlatEnd::Switch(_, _, cases, other) if cases.is_empty() => Some(*other),
        _ => None,
    }
}

/// A terminator that is decided becomes a plain branch.
#[tactic(auto, using(crate::proofs::Changing::decided_so))]
pub fn decided(end: FlatEnd) -> FlatEnd
    ensures { result ≡ decided end }
{
    match change(&end) {
        Some(to) => FlatEnd::Br(to),
        None => end,
    }
}
