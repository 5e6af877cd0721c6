ghost use Rattle.std.specs.Prelude.{ℕ};
ghost use Rattle.ir_core.specs.declared.flat.Scalar.{Scalar};
ghost use Rattle.ir_core.specs.declared.flat.FlatBody as bodies;
ghost use Rattle.ir_core.specs.Formed.{FuncType, IsFormedBody};
ghost use Rattle.const_fold.specs.FoldConstants.{constants_folded};

/// A formed body with its constants folded is formed, under the same types. It does nothing: its contract is the law.
pub fn folded_constants_are_formed()
    ensures { (types : ℕ → Scalar) (funcs : ℕ → FuncType) (own : FuncType) (b : bodies.FlatBody) → IsFormedBody types funcs own b → IsFormedBody types funcs own (constants_folded b) }
{}
