ghost use Rattle.std.specs.Prelude.{◌≡◌, false, IfOk};
ghost use Rattle.std.specs.Bool.{Decides};
ghost use Rattle.ir_core.specs.Acyclic.{HoldsItself};
ghost use Rattle.ir_core.specs.Proper.{IsProper};
ghost use Rattle.ir_core.specs.ValidTypes.{BreaksTypeNames};
ghost use Rattle.module_rules.specs.First.{earlier, IsFound};
ghost use Rattle.module_rules.specs.TypeFaults.{BreaksUses};
ghost use Rattle.module_rules.specs.Cycles.{AreOfNames, any_joined, IsWithItself};

use crate::first::{earlier, is_up_to};
use crate::type_graph::{components_of, held_names};
use ir_core::{Module, TypeDef, TypeName};
use oi_base::{NoMemory, Place};
use std::alloc::Global;
use strong_components::{Mark, are_joined, mark_at};

/// The earlier of a place at which a rule is broken and the first definition of a name that holds itself.
pub fn first_itself(
    alloc: Global,
    before: Option<Place>,
    m: &Module,
) -> Result<Option<Place>, NoMemory>
    requires proper { IsProper m.now }
    requires others { IsFound (BreaksUses m.now) before }
    ensures { IfOk result (IsFound (BreaksTypeNames m.now)) }
{
    let marks = components_of(alloc, m)?;
    let mut first = before;
    for def in m.types.defs.as_slice() {
        first = with_itself(alloc, first, m, marks.as_slice(), def)?;
    }
    Ok(first)
}

/// The earlier of a place and a definition, where the definition's name holds itself.
fn with_itself(
    alloc: Global,
    before: Option<Place>,
    m: &Module,
    marks: &[Mark],
    def: &TypeDef,
) -> Result<Option<Place>, NoMemory>
    requires proper { IsProper m.now }
    requires components { AreOfNames m.now marks.now }
    ensures { IfOk result (λ first. IsWithItself m.now.types.defs before def.now first) }
{
    if !comes_before(def.place, before) {
        return Ok(before);
    }
    if holds_itself(alloc, m, marks, def.name)? {
        return Ok(earlier(before, def.place));
    }
    Ok(before)
}

/// Whether a place stands before the first so far.
fn comes_before(p: Place, first: Option<Place>) -> bool
    ensures { result ≡ false → earlier first p ≡ first }
{
    match first {
        Some(q) => !is_up_to(q, p),
        None => true,
    }
}

/// Whether a name leads back to itself: it does where it holds a name of its component.
fn holds_itself(alloc: Global, m: &Module, marks: &[Mark], x: TypeName) -> Result<bool, NoMemory>
    requires proper { IsProper m.now }
    requires components { AreOfNames m.now marks.now }
    ensures { IfOk result (λ itself. Decides itself (HoldsItself m.now.types.defs x)) }
{
    let names = held_names(alloc, m, x)?;
    Ok(any_joined(marks, x, names.as_slice()))
}

fn any_joined(marks: &[Mark], x: TypeName, names: &[TypeName]) -> bool
    ensures { result ≡ any_joined marks.now x names.now }
{
    for y in names {
        if are_joined(mark_at(marks, y.0 as usize), mark_at(marks, x.0 as usize)) {
            return true;
        }
    }
    false
}
