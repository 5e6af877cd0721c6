//! Tests of the passes on formed bodies.
#![tactic(auto)]

#[cfg(test)]
mod pass_tests;
#[cfg(test)]
mod sample;
