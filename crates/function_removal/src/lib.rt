//! Which functions are kept under a map from call sites to labels.
#![tactic(auto)]

mod removal;

pub use removal::kept;
