ghost use Rattle.std.specs.Prelude.{OnOk, IfErr};
ghost use Rattle.std.specs.List.Sorted.{IsPermutation};
ghost use Rattle.oi_base.specs.declared.ids.Place.{Place};
ghost use Rattle.ir_core.specs.FirstBroken.{IsFirstPlace};
ghost use Rattle.ir_core.specs.ValidPaths.{BreaksAssignment};
ghost use Rattle.ir_assigned.specs.Names.{LabelsDiffer, RegistersDiffer};
ghost use Rattle.ir_assigned.specs.Assigned.{IsTestable, IsWitness, IfUnassigned};

use crate::fault::AssignFault;
use crate::graph::Graph;
use crate::names::{definitions, labels};
use crate::tester::first_unassigned;
use crate::uses::{Use, uses_of};
use ir_core::Func;
use oi_base::NoMemory;
use std::alloc::Global;

/// Tests that on every path from the entry to a use of a register its definition comes first; a phi uses a value at the
/// end of its entry's block. Its condition is that the function stands in a proper module and meets the other rules there.
/// The fault is at the first place at which a path leads to a use around the definition.
pub fn assigned(alloc: Global, f: &Func) -> Result<(), AssignFault>
    requires testable { IsTestable f.now }
    ensures ok { OnOk result ((p : Place) → BreaksAssignment f.now p → ⊥) }
    ensures first { IfErr result (IfUnassigned (λ u. IsFirstPlace (BreaksAssignment f.now) u.place)) }
    ensures path { IfErr result (IfUnassigned (IsWitness f.now)) }
{
    first_fault(alloc, f)
}

/// The same of a function in which no two blocks have one label and no two instructions write one register.
pub(crate) fn first_fault(alloc: Global, f: &Func) -> Result<(), AssignFault>
    requires labels { LabelsDiffer f.now }
    requires registers { RegistersDiffer f.now }
    ensures ok { OnOk result ((p : Place) → BreaksAssignment f.now p → ⊥) }
    ensures first { IfErr result (IfUnassigned (λ u. IsFirstPlace (BreaksAssignment f.now) u.place)) }
    ensures path { IfErr result (IfUnassigned (IsWitness f.now)) }
{
    let labels = labels(alloc, f)?;
    let definitions = definitions(alloc, f)?;
    let graph = Graph::of(alloc, f, labels.as_slice())?;
    let mut uses = uses_of(alloc, f, labels.as_slice())?;
    sort(&mut uses)?;
    match first_unassigned(alloc, &graph, definitions.as_slice(), uses.as_slice())? {
        Some(fault) => Err(AssignFault::Unassigned(fault)),
        None => Ok(()),
    }
}

/// Puts the uses of one register side by side.
fn sort(uses: &mut Vec<Use>) -> Result<(), NoMemory>
    ensures { IsPermutation uses.old.items uses.new.items }
{
    Ok(uses.sort_by_key(|u| u.local.0)?)
}
