//! Tests of certificates on texts.
#![tactic(auto)]

#[cfg(test)]
mod depth_tests;
#[cfg(test)]
mod text_tests;
#[cfg(test)]
mod texts;
#[cfg(test)]
mod tree_tests;
