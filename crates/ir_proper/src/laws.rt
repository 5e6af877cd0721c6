ghost use Rattle.std.specs.Prelude.{ℕ, ◌≤◌, List, length, Result, IfOk};
ghost use Rattle.ir_core.specs.declared.limits.TheConstants.{MOST_SITES};
ghost use Rattle.ir_core.specs.declared.module.Module as modules;
ghost use Rattle.ir_core.specs.Parts.{sites};
ghost use Rattle.ir_core.specs.Proper.{IsProper};
ghost use Rattle.call_graph.specs.Sites.{all_sites};
ghost use Rattle.ir_grammar.specs.Reading.{ReadsWithinLimits};

/// A module that was read from a text within the limits is proper, where its call sites are within theirs: counted by the
/// calls of functions that it defines, or by the sites of its call graph.
pub fn a_read_module_is_proper()
    ensures calls { (bytes : List ℕ) (m : modules.Module) → ReadsWithinLimits bytes m → length (sites m) ≤ MOST_SITES → IsProper m }
    ensures graph { (bytes : List ℕ) (m : modules.Module) → ReadsWithinLimits bytes m → length (all_sites m.funcs) ≤ MOST_SITES → IsProper m }
{}

/// What a reader answers is proper, where it ensures that it reads within the limits, whatever its errors.
pub fn an_answer_is_proper<E>()
    ensures { (bytes : List ℕ) (r : Result modules.Module E) →
        IfOk r (λ (m : modules.Module). ReadsWithinLimits bytes m × (length (all_sites m.funcs) ≤ MOST_SITES)) → IfOk r IsProper }
{}
