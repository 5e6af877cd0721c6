//! That every module that is read from a text is proper, which the rules of a module ask.
#![tactic(auto)]

mod laws;

pub use laws::{a_read_module_is_proper, an_answer_is_proper};
