ghost use Rattle.std.specs.Prelude.{◌≡◌, min, sum_by};
ghost use Rattle.ir_core.specs.Weight.{weight as weight_of, block_weight, end_weight, phi_weight};

use crate::flat::{FlatBlock, FlatBody, FlatEnd, Phi};

/// The weight of a body, or the greatest `u64` where it is greater: 1 for each instruction and terminator, 1 for
/// each entry of a phi, and 1 for each case of a switch.
pub fn weight(b: &FlatBody) -> u64
    ensures { result ≡ min (weight_of b.now) 18446744073709551615 }
{
    let mut total: u64 = 0;
    for block in b.blocks.as_slice() {
        total = total.saturating_add(weight_of_block(block));
    }
    total
}

fn weight_of_block(b: &FlatBlock) -> u64
    ensures { result ≡ min (block_weight b.now) 18446744073709551615 }
{
    weight_of_phis(b.phis.as_slice())
        .saturating_add(b.code.len() as u64)
        .saturating_add(weight_of_end(&b.end))
}

fn weight_of_phis(phis: &[Phi]) -> u64
    ensures { result ≡ min (sum_by phi_weight phis.now) 18446744073709551615 }
{
    let mut total: u64 = 0;
    for phi in phis {
        total = total.saturating_add(phi.entries.len() as u64);
    }
    total
}

fn weight_of_end(end: &FlatEnd) -> u64
    ensures { result ≡ min (end_weight end.now) 18446744073709551615 }
{
    match end {
        FlatEnd::Switch(_, _, cases, _) => (cases.len() as u64).saturating_add(1),
        _ => 1,
    }
}
