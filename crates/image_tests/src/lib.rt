//! Tests of the images of modules: the bytes of each kind of initialiser, the symbols, and the text.
#![tactic(auto)]

#[cfg(test)]
mod codes;
#[cfg(test)]
mod image_tests;
#[cfg(test)]
mod modules;
