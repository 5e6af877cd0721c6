ghost use Rattle.std.specs.Prelude.{◌≡◌, ◌⊎◌, ℕ};
ghost use Rattle.oi_base.specs.declared.ids.Place.{Place as places};
ghost use Rattle.ir_core.specs.declared.module.Module as modules;
ghost use Rattle.ir_core.specs.FirstBroken.{IsFirstBroken};
ghost use Rattle.ir_core.specs.Proper.{IsProper};
ghost use Rattle.ir_core.specs.Valid.{IsValid};

/// A proper module is valid or has a first broken rule. A module is valid exactly where it has no such rule, and it has one
/// such rule at one place at most.
pub fn a_module_has_one_verdict()
    ensures decided { (m : modules.Module) → IsProper m → IsValid m ⊎ ((number : ℕ) × (p : places) × IsFirstBroken m number p) }
    ensures valid { (m : modules.Module) → ((number : ℕ) (p : places) → IsFirstBroken m number p → ⊥) → IsValid m }
    ensures broken { (m : modules.Module) (number : ℕ) (p : places) → IsFirstBroken m number p → IsValid m → ⊥ }
    ensures one { (m : modules.Module) (k n : ℕ) (p q : places) → IsFirstBroken m k p → IsFirstBroken m n q → (k ≡ n) × (p ≡ q) }
{}
