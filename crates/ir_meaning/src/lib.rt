//! Folding: the word that an operation gives on known words, where it gives one.
#![tactic(auto)]

mod fold;
mod operations;
mod signed;
#[cfg(test)]
mod tests;

pub use fold::{Folded, fold_cast, fold_icmp, fold_op};
