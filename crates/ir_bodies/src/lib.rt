//! The reader of function bodies: instructions, blocks and parameters in brackets (docs/ACCEPTED_TEXT.md).
#![tactic(auto)]

mod allocas;
mod blocks;
mod bodies;
mod brackets;
mod calls;
mod endings;
mod geps;
mod lines;
mod operations;
mod phis;
mod terminators;
mod void_returns;

pub use bodies::body;
pub use brackets::params;
