//! Tests of forests on a module: candidates are kept and inlined in two orders.
#![tactic(auto)]

#[cfg(test)]
mod forest_tests;
#[cfg(test)]
mod modules;
