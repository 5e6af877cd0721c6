//! Tests of the selection of instructions.
#![tactic(auto)]

#[cfg(test)]
mod bodies;
#[cfg(test)]
mod checking;
#[cfg(test)]
mod select_tests;
