ghost use Rattle.std.specs.Prelude.{◌≡◌, None, map};
ghost use Rattle.std.specs.List.{list_any};
ghost use Rattle.ir_core.specs.Parts.{targets};
ghost use Rattle.ir_core.specs.ValidFunc.{BreaksEntry};
ghost use Rattle.module_rules.specs.First.{earliest, IsFound};
ghost use Rattle.module_rules.specs.Faults.{is_local};
ghost use Rattle.ir_verifier.specs.Faults.{names_entry, entry_fault, entry_faults};

use ir_core::{Block, End, Func, LocalId, SwitchCase};
use module_rules::earlier;
use oi_base::Place;

/// The first terminator that names the entry block.
#[tactic(auto, using(crate::proofs::EntryLaws::entry_found))]
pub fn first_break(f: &Func) -> Option<Place>
    ensures found { IsFound (BreaksEntry f.now) result }
{
    first_fault(f)
}

fn first_fault(f: &Func) -> Option<Place>
    ensures { result ≡ earliest None (entry_faults f.now) }
{
    let entry = f.blocks.as_slice().first()?.label;
    let mut first = None;
    for block in f.blocks.as_slice() {
        if names(&block.end, entry) {
            first = earlier(first, block.end_place);
        }
    }
    first
}

/// Whether a terminator names a block.
fn names(end: &End, label: LocalId) -> bool
    ensures { result ≡ list_any (is_local label) (targets end.now) }
{
    match end {
        End::Ret(_) | End::Unreachable => false,
        End::Br(to) => *to == label,
        End::Cond(_, then, other) => *then == label || *other == label,
        End::Switch(_, other, cases) => *other == label || any_case(cases.as_slice(), label),
    }
}

fn any_case(cases: &[SwitchCase], label: LocalId) -> bool
    ensures { result ≡ list_any (is_local label) (map (λ c. c.to) cases.now) }
{
    for case in cases {
        if case.to == label {
            return true;
        }
    }
    false
}
