ghost use Rattle.std.specs.Prelude.{◌⊎◌};
ghost use Rattle.oi_base.specs.declared.ids.Place.{Place as places};
ghost use Rattle.ir_core.specs.declared.func.Func as functions;
ghost use Rattle.ir_core.specs.FirstBroken.{IsFirstPlace};
ghost use Rattle.ir_core.specs.ValidFunc.{BreaksNames};
ghost use Rattle.ir_core.specs.ValidPaths.{BreaksAssignment};
ghost use Rattle.ir_assigned.specs.declared.fault.Unassigned as faults;
ghost use Rattle.ir_assigned.specs.Assigned.{IsWitness};

/// In a function that meets the rule of names that of assignment is decided: it is broken nowhere, or first at some place, to which
/// some path leads around the definition.
pub fn assignment_is_decided()
    ensures { (f : functions.Func) → ((p : places) → BreaksNames f p → ⊥) → ((p : places) → BreaksAssignment f p → ⊥) ⊎ ((u : faults.Unassigned) × IsFirstPlace (BreaksAssignment f) u.place × IsWitness f u) }
{}
