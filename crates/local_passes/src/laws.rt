ghost use Rattle.std.specs.Prelude.{◌≡◌, ◌≢◌, ◌↔◌, ◌≤◌, ℕ, List, true};
ghost use Rattle.ir_core.specs.declared.flat.Scalar.{Scalar};
ghost use Rattle.ir_core.specs.declared.flat.FlatBody as bodies;
ghost use Rattle.ir_core.specs.declared.flat.FlatInstr as instrs;
ghost use Rattle.ir_core.specs.Formed.{FuncType, IsFormedBody};
ghost use Rattle.ir_core.specs.WellFormed.{IsWellFormed};
ghost use Rattle.local_passes.specs.LocalCopies.{source, IsCopyOf, copies_replaced};
ghost use Rattle.local_passes.specs.Simplify.{one_round, simplified};
ghost use Rattle.std.specs.Fn.{iterate};
ghost use Rattle.local_passes.specs.DropDead.{is_needed, IsNeeded, dead_dropped};

/// A formed body with its copies replaced is formed, under the same types. It does nothing: its contract is the law.
pub fn replaced_copies_are_formed()
    ensures { (types : ℕ → Scalar) (funcs : ℕ → FuncType) (own : FuncType) (b : bodies.FlatBody) → IsFormedBody types funcs own b → IsFormedBody types funcs own (copies_replaced b) }
{}

/// A formed body without its dead code is formed, under the same types. It does nothing: its contract is the law.
pub fn bodies_without_dead_code_are_formed()
    ensures { (types : ℕ → Scalar) (funcs : ℕ → FuncType) (own : FuncType) (b : bodies.FlatBody) → IsFormedBody types funcs own b → IsFormedBody types funcs own (dead_dropped b) }
{}

/// A register is needed exactly where what is done in any case uses it, or the phi or the instruction of a needed register
/// does. It does nothing: its contract is the law.
pub fn needed_registers_have_uses()
    ensures { (b : bodies.FlatBody) (r : ℕ) → IsWellFormed b → (is_needed b r ≡ true) ↔ IsNeeded b r }
{}

/// A register has another as its source exactly where it is a copy of it. It does nothing: its contract is the law.
pub fn sources_are_of_copies()
    ensures { (code : List instrs.FlatInstr) (n x y : ℕ) → x ≢ y → (source code n x ≡ y) ↔ IsCopyOf code n x y }
{}

/// Where one round more changes nothing after some rounds, up to four, what they gave is the simplified body. It does nothing:
/// its contract is the law.
pub fn rounds_end_early()
    ensures { (b : bodies.FlatBody) (n : ℕ) → n ≤ 4 → one_round (iterate one_round n b) ≡ iterate one_round n b → simplified b ≡ iterate one_round n b }
{}

/// A formed body is formed when it is simplified, under the same types. It does nothing: its contract is the law.
pub fn simplified_bodies_are_formed()
    ensures { (types : ℕ → Scalar) (funcs : ℕ → FuncType) (own : FuncType) (b : bodies.FlatBody) → IsFormedBody types funcs own b → IsFormedBody types funcs own (simplified b) }
{}
