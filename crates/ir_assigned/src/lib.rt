//! Definite assignment: on every path from a function's entry to a use of a register, its definition comes first.
#![tactic(auto)]

mod definite;
mod fault;
mod graph;
mod laws;
mod names;
mod search;
mod table;
mod tester;
#[cfg(test)]
mod tests;
mod uses;

pub use definite::assigned;
pub use fault::{AssignFault, BlockPath, Unassigned};
pub use laws::assignment_is_decided;
