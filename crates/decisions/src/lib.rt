//! Which call sites are inlined: whole and partial maps from candidate sites to labels, and their text.
#![tactic(auto)]

mod faults;
mod maps;
mod places;
mod printing;
mod reading;
mod text_lines;

pub use faults::DecisionFault;
pub use maps::{Decisions, Label, Partial};
pub use printing::print_decisions;
pub use reading::read_decisions;
pub use text_lines::{line_end, place_of_byte};

#[cfg(test)]
mod tests;
