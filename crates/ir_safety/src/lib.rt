//! Type safety: that no run of a valid module, and none of a formed program, is stuck, and that the plain bodies of a valid
//! module are formed.
#![tactic(auto)]

mod laws;

pub use laws::{
    a_formed_run_is_never_stuck, a_plain_body_is_formed, a_valid_run_is_never_stuck,
    plain_bodies_are_formed, registers_hold_values_of_their_types,
    weight_bounds_registers_and_blocks,
};
