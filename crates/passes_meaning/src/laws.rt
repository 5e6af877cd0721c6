ghost use Rattle.std.specs.Prelude.{◌≡◌, ◌≤◌, ℕ, None};
ghost use Rattle.ir_core.specs.declared.flat.Scalar.{Scalar};
ghost use Rattle.ir_core.specs.Flat.{Program};
ghost use Rattle.ir_core.specs.Formed.{FuncType, IsFormed};
ghost use Rattle.const_fold.specs.FoldConstants.{constants_folded};
ghost use Rattle.flow_fold.specs.FoldBranches.{branches_folded};
ghost use Rattle.flow_fold.specs.DropUnreached.{unreached_dropped};
ghost use Rattle.local_passes.specs.DropDead.{dead_dropped};
ghost use Rattle.flow_fold.specs.MergeBlocks.{blocks_merged};
ghost use Rattle.local_passes.specs.LocalCopies.{copies_replaced};
ghost use Rattle.local_passes.specs.Simplify.{simplified};
ghost use Rattle.ir_simulation.specs.KeepsMeaning.{FollowsOnBytes, KeepsMeaning};
ghost use Rattle.ir_simulation.specs.Replaced.{with_all};

/// Of every formed program that holds a body, the program with the body's branches folded is formed, and follows it. It does
/// nothing: its contract is the law.
pub fn folding_branches_keeps_meaning()
    ensures { KeepsMeaning branches_folded }
{}

/// The same without the body's unreached blocks. It does nothing: its contract is the law.
pub fn dropping_unreached_blocks_keeps_meaning()
    ensures { KeepsMeaning unreached_dropped }
{}

/// The same with the body's copies replaced. It does nothing: its contract is the law.
pub fn replacing_copies_keeps_meaning()
    ensures { KeepsMeaning copies_replaced }
{}

/// The same with the body's constants folded. It does nothing: its contract is the law.
pub fn folding_constants_keeps_meaning()
    ensures { KeepsMeaning constants_folded }
{}

/// The same without the body's dead code. It does nothing: its contract is the law.
pub fn dropping_dead_code_keeps_meaning()
    ensures { KeepsMeaning dead_dropped }
{}

/// The same with the body's blocks merged. It does nothing: its contract is the law.
pub fn merging_blocks_keeps_meaning()
    ensures { KeepsMeaning blocks_merged }
{}

/// The same with four rounds of all passes, and so with what `simplify` of `local_passes` is to give. It does nothing: its
/// contract is the law.
pub fn simplifying_keeps_meaning()
    ensures { KeepsMeaning simplified }
{}

/// Of every formed program of n functions, the program with all its bodies simplified at once is formed, and follows it. It does
/// nothing: its contract is the law.
pub fn simplifying_all_bodies_keeps_meaning()
    ensures { (p : Program) (types : ℕ → ℕ → Scalar) (funcs : ℕ → FuncType) → IsFormed p types funcs → (n : ℕ) → ((g : ℕ) → n ≤ g → p.body g ≡ None) → IsFormed (with_all p simplified) types funcs × FollowsOnBytes p (with_all p simplified) }
{}
