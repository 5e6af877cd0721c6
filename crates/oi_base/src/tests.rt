ghost use Rattle.std.specs.Prelude.{◌≡◌};
ghost use Rattle.oi_base.specs.Still.{matches_itself};

use crate::{TurnByTurn, a_simulation_shows_each_run_in_the_other};

struct Still;

/// A run that stays where it is, and itself.
impl TurnByTurn<u8, u8> for Still {
    ghost go_source = { λ n. n };

    ghost go_target = { λ n. n };

    ghost stands = { λ a b. a ≡ b };

    ghost meets = { λ a b. a ≡ b };

    ghost broken = { λ a b. ⊥ };

    ghost stopped = { λ a b. ⊥ };

    ghost left = { λ a. 0 };

    ghost is_undefined = { λ a. ⊥ };

    ghost simulates = { matches_itself };
}

#[test]
fn a_run_is_seen_in_itself() {
    a_simulation_shows_each_run_in_the_other::<u8, u8, Still>();
}
