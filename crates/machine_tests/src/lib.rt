//! Tests of the words of instructions, the object file and the machine.
#![tactic(auto)]

#[cfg(test)]
mod file_tests;
#[cfg(test)]
mod run_tests;
#[cfg(test)]
mod word_tests;
