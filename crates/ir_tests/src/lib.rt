//! Tests of types' layouts, and of the lexer, the reader, the printer and the verifier on texts.
#![tactic(auto)]

#[cfg(test)]
mod layout_tests;
#[cfg(test)]
mod lexer_tests;
#[cfg(test)]
mod printer_tests;
#[cfg(test)]
mod reader_tests;
#[cfg(test)]
mod rule_tests;
#[cfg(test)]
mod texts;
#[cfg(test)]
mod verifier_tests;
