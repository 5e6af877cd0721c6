ghost use Rattle.std.specs.Prelude.{◌≡◌, IfOk, false};
ghost use Rattle.std.specs.List.{list_any};
ghost use Rattle.ir_core.specs.WellFormed.{IsWellFormed};
ghost use Rattle.local_passes.specs.Simplify.{one_round, simplified};

use crate::copies::copies_pass;
use crate::dead::dead_pass;
use const_fold::{Passed, constants_pass};
use flow_fold::{branches_pass, merging_pass, unreached_pass};
use ir_core::FlatBody;
use oi_base::NoMemory;
use std::alloc::Global;

/// How many rounds of all passes a body goes through at most.
pub const ROUNDS: usize = 4;

/// A formed body after `ROUNDS` rounds of all passes: constants, branches, unreached blocks, merging, copies and dead code, in
/// this order. It ends with the first round that changes nothing, after which no other would. After `NoMemory` the body is gone.
pub fn simplify(alloc: Global, b: FlatBody) -> Result<FlatBody, NoMemory>
    requires formed { IsWellFormed b }
    ensures { IfOk result (λ new. new ≡ simplified b) }
{
    let mut body = b;
    for _round in 0..ROUNDS {
        let Passed { body: new, changed } = round(alloc, body)?;
        body = new;
        if !changed {
            return Ok(body);
        }
    }
    Ok(body)
}

/// Whether one of some passes changed something.
fn any_changed(flags: &[bool]) -> bool
    ensures { result ≡ list_any (λ flag. flag) flags.now }
{
    for flag in flags {
        if *flag {
            return true;
        }
    }
    false
}

/// A body after one round of all passes, and whether a pass changed something.
#[tactic(auto, using(crate::proofs::RoundsFormed::constants_well, crate::proofs::RoundsFormed::branches_well, crate::proofs::RoundsFormed::unreached_well, crate::proofs::RoundsFormed::merged_well, crate::proofs::RoundsFormed::copies_well))]
fn round(alloc: Global, b: FlatBody) -> Result<Passed, NoMemory>
    requires formed { IsWellFormed b }
    ensures body { IfOk result (λ p. p.body ≡ one_round b) }
    ensures same { IfOk result (λ p. p.changed ≡ false → p.body ≡ b) }
{
    let folded = constants_pass(alloc, b)?;
    let decided = branches_pass(alloc, folded.body)?;
    let reached = unreached_pass(alloc, decided.body)?;
    let merged = merging_pass(alloc, reached.body)?;
    let replaced = copies_pass(alloc, merged.body)?;
    let thinned = dead_pass(alloc, replaced.body)?;
    let changed = any_changed(&[
        folded.changed,
        decided.changed,
        reached.changed,
        merged.changed,
        replaced.changed,
        thinned.changed,
    ]);
    Ok(Passed {
        body: thinned.body,
        changed,
    })
}
