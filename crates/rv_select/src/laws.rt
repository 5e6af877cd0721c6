ghost use Rattle.std.specs.Prelude.{◌≡◌, ◌≢◌, ◌<◌, ℕ, Bool, false, List, All, Some, slice_get};
ghost use Rattle.oi_base.specs.declared.ids.BlockId.{BlockId};
ghost use Rattle.oi_base.specs.Follows.{Stuck};
ghost use Rattle.ir_core.specs.declared.flat.FlatBlock.{FlatBlock};
ghost use Rattle.ir_core.specs.declared.flat.FlatInstr.{FlatInstr};
ghost use Rattle.ir_core.specs.declared.flat.FlatBody.{FlatBody};
ghost use Rattle.ir_core.specs.Flat.{Program, Run, flat_run, flat_step};
ghost use Rattle.ir_core.specs.Formed.{IsBlock};
ghost use Rattle.rv_isa.specs.Isa.{Machine, run};
ghost use Rattle.rv_isa.specs.Refines.{Refines};
ghost use Rattle.rv_isa.specs.Words.{IsSigned, IsEven};
ghost use Rattle.rv_select.specs.declared.item.Draft.{Draft};
ghost use Rattle.rv_select.specs.declared.item.Draft.TheVariants.{Near};
ghost use Rattle.rv_select.specs.declared.item.Test.{Test};
ghost use Rattle.rv_select.specs.Branches.{is_long, place, grown, settled, IsWithin};
ghost use Rattle.rv_select.specs.Pending.{distance};
ghost use Rattle.rv_select.specs.Code.{code, ArePaired};
ghost use Rattle.rv_select.specs.Stands.{Object, body_in, frame_in, StandsFor, IsLaid};
ghost use Rattle.rv_select.specs.Sums.{IsSum, IsSums, IsNeverStuck};
ghost use Rattle.rv_select.specs.Carried.{IsCarriedOut};
ghost use Rattle.rv_select.specs.Worked.{WorkedCodes};
ghost use Rattle.rv_select.specs.WorkedBranches.{WorkedBranches};

/// The rows of sums and differences, of any width, in any block of any activation of any program: from a state of the
/// machine that stands for the run's, the turn is carried out, where it isn't stuck. It does nothing: its contract is
/// the law.
#[tactic(auto, using(crate::proofs::CarriedSums::sums_carried))]
pub fn sums_are_carried_out()
    ensures { (o : Object) (p : Program) → IsLaid o p → (largest : ℕ) (at : ℕ → ℕ) (r : Run) (m : Machine) → StandsFor o p at r m → (block : FlatBlock) (i : FlatInstr) → IsBlock (body_in p r.top.func) r.top.block block → slice_get block.code r.top.place ≡ Some i → IsSum (body_in p r.top.func) i → (flat_step p r).status ≢ Stuck → IsCarriedOut o p largest r m }
{}

/// Where a program of one function and one block, of sums and differences of any width, lies in an object, the object
/// refines the program's run from the load on, on every input of bytes on which that is never stuck. It does nothing:
/// its contract is the law.
#[tactic(auto, using(crate::proofs::WholeProgram::sums_refined))]
pub fn sums_are_refined()
    ensures { (o : Object) (p : Program) → IsLaid o p → IsSums p → (input : List ℕ) → All (λ (b : ℕ). b < 256) input → IsNeverStuck p input → Refines (frame_in p p.main) (flat_run p input) (run o.segments input) }
{}

/// The codes of small bodies: each row of the table at each width, with near and far slots. It does nothing: its contract
/// is the law.
#[tactic(auto, using(crate::proofs::WorkedCodes::worked_codes))]
pub fn worked_codes()
    ensures { WorkedCodes }
{}

/// The settled choice of long branches stays as it is in a further round, so each branch that is short reaches its block,
/// and it is the least choice that stays so. It does nothing: its contract is the law.
pub fn branches_settle()
    ensures settled { (heads : ℕ → ℕ) (ds : List Draft) → grown heads ds (settled heads ds) ≡ settled heads ds }
    ensures least { (heads : ℕ → ℕ) (ds : List Draft) (longs : List Bool) → grown heads ds longs ≡ longs → IsWithin (settled heads ds) longs }
    ensures near { (heads : ℕ → ℕ) (ds : List Draft) (k : ℕ) (t : Test) (r q : ℕ) (b : BlockId) → slice_get ds k ≡ Some (Near t r q b) → is_long (settled heads ds) k ≡ false → IsSigned 12 (distance (place (settled heads ds) k) (place (settled heads ds) (heads b.0))) × IsEven (distance (place (settled heads ds) k) (place (settled heads ds) (heads b.0))) }
{}

/// In each code the halves of calls stand in pairs. It does nothing: its contract is the law.
#[tactic(auto, using(crate::proofs::Paired::code_paired))]
pub fn calls_are_paired()
    ensures { (b : FlatBody) → ArePaired (code b) }
{}

/// The codes of bodies with branches at the edges of what a branch reaches and beyond them, where one grows after another
/// too. It does nothing: its contract is the law.
#[tactic(auto, using(crate::proofs::WorkedBranches::worked_branches))]
pub fn worked_branches()
    ensures { WorkedBranches }
{}
