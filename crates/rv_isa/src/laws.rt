//! Laws of the machine, each the contract of a function that does nothing.

ghost use Rattle.std.specs.Prelude.{ℕ, List, ◌≡◌, ◌≢◌, ◌⊎◌, ◌+◌, ◌≤◌, ◌<◌, ◌%◌, ◌^◌, true, length};
ghost use Rattle.std.specs.Fn.{iterate};
ghost use Rattle.rv_isa.specs.Memory.{Segments, read, write, in_text, text_start, data_start};
ghost use Rattle.rv_isa.specs.Isa.{Machine, Running, step, executed, run};
ghost use Rattle.rv_isa.specs.Words.{word_of, InRange};
ghost use Rattle.rv_isa.specs.Decode.{decode_of};
ghost use Rattle.rv_isa.specs.declared.rv.Rv.{Rv};
ghost use Rattle.rv_isa.specs.Examples.{WorkedRows, WorkedRuns};
ghost use Rattle.oi_base.specs.Follows.{Seen, IsPrefix, Follows};
ghost use Rattle.rv_isa.specs.Laws.{Stands};
ghost use Rattle.rv_isa.specs.Refines.{Refines};

/// The word of an instruction has 32 bits, and decodes to that instruction.
#[tactic(auto, using(crate::proofs::WordBounds::word_below, crate::proofs::Completeness::decodes))]
pub fn an_encoded_instruction_decodes()
    ensures below { (i : Rv) → InRange i → word_of i < 2 ^ 32 }
    ensures decodes { (i : Rv) → InRange i → decode_of (word_of i) ≡ Some i }
{}

/// What a machine has put is never taken back: the output only grows.
#[tactic(auto, using(crate::proofs::OutputGrowth::output_grows))]
pub fn output_only_grows()
    ensures { (s : Segments) (m : Machine) (n : ℕ) → IsPrefix m.output (iterate (step s) n m).output }
{}

/// A machine that stopped does nothing more.
#[tactic(auto, using(crate::proofs::OutputGrowth::stopped_stays))]
pub fn a_stopped_machine_stays()
    ensures { (s : Segments) (m : Machine) (n : ℕ) → m.stop ≢ Running → iterate (step s) n m ≡ m }
{}

/// What was written is read again, as far as the bytes hold it, and all other bytes stay.
#[tactic(auto, using(crate::proofs::Bytes::read_back, crate::proofs::Bytes::write_outside))]
pub fn a_write_is_read()
    ensures value { (bytes : ℕ → ℕ) (n a v : ℕ) → read (write bytes n a v) n a ≡ v % 256 ^ n }
    ensures others { (bytes : ℕ → ℕ) (n a v q : ℕ) → (q < a) ⊎ (a + n ≤ q) → write bytes n a v q ≡ bytes q }
{}

/// In a run of a loaded text that lies below the data, the instruction that stands at the pc is the one that
/// is executed.
#[tactic(auto, using(crate::proofs::Stretches::stands_and_executes))]
pub fn an_instruction_in_the_text_is_executed()
    ensures { (s : Segments) (input : List ℕ) (n : ℕ) (i : Rv) → text_start + length s.text ≤ data_start → (run s input n).stop ≡ Running → Stands s (run s input n).pc i → step s (run s input n) ≡ executed s (run s input n) i }
{}

/// No instruction changes the text, where it lies below the data.
#[tactic(auto, using(crate::proofs::KeptText::text_stays))]
pub fn the_text_stays()
    ensures { (s : Segments) → text_start + length s.text ≤ data_start → (a : ℕ) → in_text s a 1 ≡ true → (m : Machine) (n : ℕ) → (iterate (step s) n m).memory a ≡ m.memory a }
{}

/// Each row of the instructions on an example, and runs that come to each of the ends.
#[tactic(auto, using(crate::proofs::Examples::worked_rows, crate::proofs::Examples::worked_runs))]
pub fn worked_examples()
    ensures rows { WorkedRows }
    ensures runs { WorkedRuns }
{}

/// An object that refines a follower of a run refines the run.
#[tactic(auto, using(crate::proofs::RefinementChain::refines_on))]
pub fn an_object_of_a_follower_refines()
    ensures { (largest : ℕ) (r s : ℕ → Seen) (o : ℕ → Machine) → Follows r s → Refines largest s o → Refines largest r o }
{}
