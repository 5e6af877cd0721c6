ghost use Rattle.std.specs.Prelude.{◌≡◌, ◌≢◌, ◌<◌, ◌≤◌, ◌+◌, ℕ, List, length, All, Some, slice_get};
ghost use Rattle.std.specs.Fn.{iterate};
ghost use Rattle.oi_base.specs.Follows.{Stuck};
ghost use Rattle.ir_core.specs.declared.flat.Scalar.{Scalar};
ghost use Rattle.ir_core.specs.declared.func.Func as funcs;
ghost use Rattle.ir_core.specs.declared.module.Module as modules;
ghost use Rattle.ir_core.specs.Flat.{Program, flat_step, flat_start, flat_run};
ghost use Rattle.ir_core.specs.Formed.{FuncType, IsFormedBody, IsFormed};
ghost use Rattle.ir_core.specs.Plain.{registers, plain_body, plain_program};
ghost use Rattle.ir_core.specs.Proper.{IsProper, IsProperFunc};
ghost use Rattle.ir_core.specs.Source.{src};
ghost use Rattle.ir_core.specs.Valid.{IsValid};
ghost use Rattle.ir_core.specs.Weight.{weight};
ghost use Rattle.ir_safety.specs.PlainTypes.{func_types, func_type, plain_types, plain_funcs, HasFewOwn, HasFewNumbers};
ghost use Rattle.ir_safety.specs.TypedRuns.{HoldsTypes, HoldsOffsets, activations};

/// No run of a proper and valid module is stuck, on any input of bytes: each operand has a value when it is used, and that
/// is of the type that the operation asks for. It does nothing: its contract is the law.
pub fn a_valid_run_is_never_stuck()
    ensures { (m : modules.Module) → IsProper m → IsValid m → (input : List ℕ) → All (λ b. b < 256) input → (n : ℕ) → (src m input n).status ≢ Stuck }
{}

/// The run of a formed program of flat bodies is never stuck, on any input of bytes, whatever the types are under which it is
/// formed. It does nothing: its contract is the law.
pub fn a_formed_run_is_never_stuck()
    ensures { (p : Program) (types : ℕ → ℕ → Scalar) (funcs : ℕ → FuncType) → IsFormed p types funcs → (input : List ℕ) → All (λ b. b < 256) input → (n : ℕ) → (flat_run p input n).status ≢ Stuck }
{}

/// The plain bodies of a proper and valid module are formed under the types of its registers and functions, where its
/// functions have fewer than 2^32 registers and blocks. It does nothing: its contract is the law.
pub fn plain_bodies_are_formed()
    ensures { (m : modules.Module) → IsProper m → IsValid m → HasFewNumbers m → IsFormed (plain_program m) (plain_types m) (plain_funcs m) }
{}

/// The same of one function by itself: only its own registers and blocks have to be few. It does nothing: its contract is the
/// law.
pub fn a_plain_body_is_formed()
    ensures { (m : modules.Module) → IsProper m → IsValid m → (g : ℕ) (f : funcs.Func) → slice_get m.funcs g ≡ Some f → HasFewOwn f → IsFormedBody (func_types f) (plain_funcs m) (func_type f) (plain_body m f) }
{}

/// In each run of a formed program, after any number of turns, each register of each activation that has a value has one of
/// its type: a word below its width's power, or a pointer with an offset of 32 bits; and the pointers in memory have
/// such offsets. It does nothing: its contract is the law.
pub fn registers_hold_values_of_their_types()
    ensures registers { (p : Program) (types : ℕ → ℕ → Scalar) (funcs : ℕ → FuncType) → IsFormed p types funcs → (input : List ℕ) → All (λ b. b < 256) input → (n : ℕ) → All (HoldsTypes types) (activations (iterate (flat_step p) n (flat_start p input))) }
    ensures memory { (p : Program) (types : ℕ → ℕ → Scalar) (funcs : ℕ → FuncType) → IsFormed p types funcs → (input : List ℕ) → All (λ b. b < 256) input → (n : ℕ) → HoldsOffsets (iterate (flat_step p) n (flat_start p input)).memory }
{}

/// Of a function of a proper module: its registers but the parameters, of which there are 8 at most, and its blocks are no
/// more than its plain body weighs. It does nothing: its contract is the law.
pub fn weight_bounds_registers_and_blocks()
    ensures registers { (m : modules.Module) (f : funcs.Func) → IsProperFunc f → length (registers f) ≤ 8 + weight (plain_body m f) }
    ensures blocks { (m : modules.Module) (f : funcs.Func) → IsProperFunc f → length f.blocks ≤ weight (plain_body m f) }
{}
