//! Copies and dead registers of flat bodies, and the rounds of all passes.
#![tactic(auto)]

mod acts;
mod copied_phis;
mod copies;
mod copy_table;
mod dead;
mod laws;
mod needs;
mod pipeline;
mod sources;
mod use_table;

pub use copies::local_copies;
pub use dead::drop_dead;
pub use laws::{
    bodies_without_dead_code_are_formed, needed_registers_have_uses, replaced_copies_are_formed,
    rounds_end_early, simplified_bodies_are_formed, sources_are_of_copies,
};
pub use pipeline::{ROUNDS, simplify};
