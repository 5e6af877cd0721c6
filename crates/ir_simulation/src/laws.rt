ghost use Rattle.std.specs.Prelude.{◌≡◌, ◌≤◌, ℕ, suc, None};
ghost use Rattle.std.specs.Fn.{iterate};
ghost use Rattle.ir_core.specs.declared.flat.Scalar.{Scalar};
ghost use Rattle.ir_core.specs.declared.flat.FlatBody as bodies;
ghost use Rattle.ir_core.specs.Flat.{Program};
ghost use Rattle.ir_core.specs.Formed.{FuncType, IsFormed};
ghost use Rattle.ir_simulation.specs.KeepsMeaning.{FollowsOnBytes, KeepsMeaning};
ghost use Rattle.ir_simulation.specs.Replaced.{with_all};

/// Where two passes keep the meaning, so does the second after the first. It does nothing: its contract is the law.
pub fn passes_compose()
    ensures { (a b : bodies.FlatBody → bodies.FlatBody) → KeepsMeaning a → KeepsMeaning b → KeepsMeaning (λ x. b (a x)) }
{}

/// Where a pass keeps the meaning, so do any number of rounds of it. It does nothing: its contract is the law.
pub fn a_pass_may_be_repeated()
    ensures { (pass : bodies.FlatBody → bodies.FlatBody) → KeepsMeaning pass → (n : ℕ) → KeepsMeaning (iterate pass (suc n)) }
{}

/// Where a pass keeps the meaning, of every formed program of n functions the program with all bodies passed at once is formed,
/// and follows it. It does nothing: its contract is the law.
pub fn all_bodies_may_be_passed()
    ensures { (pass : bodies.FlatBody → bodies.FlatBody) → KeepsMeaning pass → (p : Program) (types : ℕ → ℕ → Scalar) (funcs : ℕ → FuncType) → IsFormed p types funcs → (n : ℕ) → ((g : ℕ) → n ≤ g → p.body g ≡ None) → IsFormed (with_all p pass) types funcs × FollowsOnBytes p (with_all p pass) }
{}
