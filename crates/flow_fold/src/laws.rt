ghost use Rattle.std.specs.Prelude.{◌≡◌, ◌↔◌, ◌∷◌, ℕ, List, true};
ghost use Rattle.ir_core.specs.declared.flat.Scalar.{Scalar};
ghost use Rattle.ir_core.specs.declared.flat.FlatBody as bodies;
ghost use Rattle.ir_core.specs.Formed.{FuncType, IsPath, IsFormedBody};
ghost use Rattle.flow_fold.specs.FoldBranches.{branches_folded};
ghost use Rattle.flow_fold.specs.DropUnreached.{is_reached, unreached_dropped};
ghost use Rattle.flow_fold.specs.MergeBlocks.{blocks_merged};

/// A formed body with its branches folded is formed, under the same types. It does nothing: its contract is the law.
pub fn folded_branches_are_formed()
    ensures { (types : ℕ → Scalar) (funcs : ℕ → FuncType) (own : FuncType) (b : bodies.FlatBody) → IsFormedBody types funcs own b → IsFormedBody types funcs own (branches_folded b) }
{}

/// A formed body without its unreached blocks is formed, under the same types. It does nothing: its contract is the law.
pub fn reached_blocks_are_formed()
    ensures { (types : ℕ → Scalar) (funcs : ℕ → FuncType) (own : FuncType) (b : bodies.FlatBody) → IsFormedBody types funcs own b → IsFormedBody types funcs own (unreached_dropped b) }
{}

/// A formed body with its blocks merged is formed, under the same types. It does nothing: its contract is the law.
pub fn merged_blocks_are_formed()
    ensures { (types : ℕ → Scalar) (funcs : ℕ → FuncType) (own : FuncType) (b : bodies.FlatBody) → IsFormedBody types funcs own b → IsFormedBody types funcs own (blocks_merged b) }
{}

/// A block is reached exactly where some path leads to it from the entry. It does nothing: its contract is the law.
pub fn reached_blocks_have_paths()
    ensures path { (b : bodies.FlatBody) (n : ℕ) → is_reached b n ≡ true → (older : List ℕ) × IsPath b (n ∷ older) }
    ensures reached { (b : bodies.FlatBody) (older : List ℕ) (n : ℕ) → IsPath b (n ∷ older) → is_reached b n ≡ true }
{}
