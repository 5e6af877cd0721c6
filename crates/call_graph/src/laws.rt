ghost use Rattle.std.specs.Prelude.{ℕ, List, Bool};
ghost use Rattle.ir_core.specs.declared.func.Func as functions;
ghost use Rattle.call_graph.specs.Sites.{CandidatesLead};

/// No chain of candidates leads back to where it begins. It does nothing: its contract is the law.
pub fn candidates_form_no_cycle()
    ensures { (funcs : List functions.Func) (free : Bool) (f : ℕ) → CandidatesLead funcs free f f → ⊥ }
{}
