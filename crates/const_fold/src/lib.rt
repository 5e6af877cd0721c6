//! The folding of constants in flat bodies.
#![tactic(auto)]

mod entries;
mod fact_table;
mod folding;
mod laws;
mod operands;
mod order;
mod passed;
mod results;
mod rewrite;
mod shortening;
mod sweep;
#[cfg(test)]
mod tests;

pub use folding::{constants_pass, fold_constants};
pub use laws::folded_constants_are_formed;
pub use operands::{constant, same_op, word_in};
pub use order::reversed;
pub use passed::Passed;
