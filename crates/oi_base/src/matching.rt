ghost use Rattle.std.specs.Prelude.{ℕ};
ghost use Rattle.oi_base.specs.Turns.{Simulates, Simulated};

/// How the turns of a source of states `A` are matched by turns of a target of states `B`. An `impl` gives both
/// runs' turns, when a target's state stands for a source's, and the proof that each turn is matched.
pub trait TurnByTurn<A, B> {
    ghost go_source: { A → A };

    ghost go_target: { B → B };

    ghost stands: { A → B → Type 0 };

    ghost meets: { A → B → Type 0 };

    ghost broken: { A → B → Type 0 };

    ghost stopped: { A → B → Type 0 };

    ghost left: { A → ℕ };

    ghost is_undefined: { A → Type 0 };

    ghost simulates: { Simulates go_source go_target stands meets broken stopped left is_undefined };
}

/// Where each turn of one run is matched by turns of another, each run is seen in the other, until the one is
/// undefined or the other's stack ends. It does nothing: its contract is the law.
pub fn a_simulation_shows_each_run_in_the_other<A, B, S: TurnByTurn<A, B>>()
    ensures { (a : A) (b : B) → S.stands a b → Simulated S.go_source S.go_target S.meets S.broken S.stopped S.is_undefined a b }
{}
