ghost use Rattle.std.specs.Prelude.{◌≡◌, ◌≢◌, ◌+◌, ℕ, List, Bool, Some, IsTrue, Contains};
ghost use Rattle.oi_base.specs.Follows.{Going, Undefined, IsPrefix};
ghost use Rattle.ir_core.specs.Flat.{Program, flat_run};
ghost use Rattle.ir_core.specs.declared.ty.TypeName.{TypeName};
ghost use Rattle.ir_core.specs.declared.ty.TypeDef.{TypeDef};
ghost use Rattle.ir_core.specs.Sizes.{definition, IsLaid};
ghost use Rattle.ir_core.specs.Parts.{names_in_type};
ghost use Rattle.ir_core.specs.Acyclic.{HasNoVoid, HoldsItself, IsAcyclic};
ghost use Rattle.ir_core.specs.declared.module.Module as modules;
ghost use Rattle.ir_core.specs.Valid.{IsValid};
ghost use Rattle.ir_core.specs.Plain.{RunsAsTheSource};
ghost use Rattle.ir_core.specs.SourceExamples.{WorkedSourceRuns};

use crate::defs::TypeDefs;
use crate::ty::IrType;

/// A type has a layout where no `void` stands in it and its names are among some that are defined without `void`, by
/// one another alone, and of which none leads back to itself. It does nothing: its contract is the law.
pub fn acyclic_types_have_layouts(defs: &TypeDefs, t: &IrType)
    ensures { (among : TypeName → Bool) → IsAcyclic defs.now among → HasNoVoid t.now → ((x : TypeName) → Contains (names_in_type t.now) x → IsTrue (among x)) → IsLaid defs.now t.now }
{}

/// In a type that has a layout no `void` stands, and each name in it is defined, by a type that has a layout, and doesn't
/// lead back to itself. It does nothing: its contract is the law.
pub fn types_with_layouts_are_acyclic(defs: &TypeDefs, t: &IrType)
    ensures no_void { IsLaid defs.now t.now → HasNoVoid t.now }
    ensures defined { IsLaid defs.now t.now → (x : TypeName) → Contains (names_in_type t.now) x → (d : TypeDef) × (definition defs.now x ≡ Some d) × IsLaid defs.now d.ty }
    ensures no_cycle { IsLaid defs.now t.now → (x : TypeName) → Contains (names_in_type t.now) x → HoldsItself defs.now x → ⊥ }
{}

/// What a run of flat bodies has put is never taken back, a run that doesn't go on stays as it is, and the turn at which a
/// run becomes undefined leaves its output.
pub fn flat_output_only_grows()
    ensures grows { (p : Program) (input : List ℕ) (m n : ℕ) → IsPrefix (flat_run p input m).output (flat_run p input (m + n)).output }
    ensures stays { (p : Program) (input : List ℕ) (m n : ℕ) → (flat_run p input m).status ≢ Going → flat_run p input (m + n) ≡ flat_run p input m }
    ensures undefined { (p : Program) (input : List ℕ) (m : ℕ) → (flat_run p input (m + 1)).status ≡ Undefined → (flat_run p input (m + 1)).output ≡ (flat_run p input m).output }
{}

/// Where a module breaks no rule, the run of its plain flat bodies is the module's own run: after any number of turns
/// both have the same output, status and depth. It does nothing: its contract is the law.
pub fn plain_bodies_run_as_the_source()
    ensures { (m : modules.Module) → IsValid m → RunsAsTheSource m }
{}

/// Runs of small modules: each kind of poison, divisions, pointers in memory, comparisons of pointers, calls, the
/// externals, and a loop with phis. It does nothing: its contract is the law.
#[tactic(auto, using(crate::proofs::SourceExamples::worked_source_runs))]
pub fn worked_runs()
    ensures { WorkedSourceRuns }
{}
