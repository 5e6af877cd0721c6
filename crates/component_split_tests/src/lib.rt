//! Tests of components and of how many nodes the search's tree has, on modules.
#![tactic(auto)]

#[cfg(test)]
mod component_tests;
#[cfg(test)]
mod count_tests;
#[cfg(test)]
mod modules;
