ghost use Rattle.std.specs.Prelude.{ℕ};
ghost use Rattle.oi_base.specs.Follows.{Seen, Follows};

/// What follows a follower of a run follows the run.
#[tactic(auto, using(crate::proofs::Chain::follows_trans))]
pub fn followers_chain()
    ensures { (r s t : ℕ → Seen) → Follows r s → Follows s t → Follows r t }
{}
