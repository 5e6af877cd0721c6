//! Laws of the bounded machine, each the contract of a function that does nothing.

ghost use Rattle.std.specs.Prelude.{ℕ, List, ◌≤◌, ◌<◌, length};
ghost use Rattle.std.specs.Fn.{iterate};
ghost use Rattle.rv_isa.specs.Memory.{Segments};
ghost use Rattle.rv_isa.specs.Isa.{run};
ghost use Rattle.rv_machine.specs.State.{output_room, started, turned};
ghost use Rattle.rv_machine.specs.Laws.{IsRun, IsFull};

/// As long as all that it puts finds room, the bounded machine is the definition's, whose output has no
/// bound. It is full exactly where the definition's machine has put more, and then stays as that machine
/// was before.
#[tactic(auto, using(crate::proofs::OutputRoom::runs_on, crate::proofs::OutputRoom::fills))]
pub fn a_bounded_run_is_a_run()
    ensures room { (s : Segments) (input : List ℕ) (n : ℕ) → length (run s input n).output ≤ output_room → IsRun s input n (iterate (turned s) n (started s input)) }
    ensures full { (s : Segments) (input : List ℕ) (n : ℕ) → output_room < length (run s input n).output → IsFull s input n (iterate (turned s) n (started s input)) }
{}
