//! Simulations between programs of flat bodies: what has to be shown of two bodies alone, so that a program with one of them
//! in the place of the other follows it.
#![tactic(auto)]

mod laws;

pub use laws::{a_pass_may_be_repeated, all_bodies_may_be_passed, passes_compose};
