//! The rules of a module as a whole, and what serves every rule: the first of some places, sets of numbers, and which
//! integers fit their types (docs/RULES.md).
#![tactic(auto)]

pub mod alignments;
mod cycles;
mod first;
pub mod has_main;
pub mod initialisers;
mod integers;
mod laws;
mod measure;
mod numbers;
mod same_types;
pub mod sizes;
mod struct_names;
pub mod symbols;
pub mod target;
pub mod totals;
mod type_graph;
pub mod type_names;
mod type_parts;
mod type_uses;
mod variables;
mod walk;

pub use first::{earlier, earlier_if, is_up_to};
pub use integers::{count_fits, counts_fit, fits_type, word_of, words};
pub use laws::a_rule_of_a_module_is_decided;
pub use measure::{align_or_least, size_up_to};
pub use numbers::Numbers;
pub use same_types::{same_type, same_width};
pub use variables::global_numbers;
pub use walk::{const_walks, next_by, walks};
