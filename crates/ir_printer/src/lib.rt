//! The text of a module, in the layout in which clang writes it.
#![tactic(auto)]

mod blocks;
mod constants;
mod demands;
mod entities;
mod laws;
mod marks;
mod operations;
mod order;
mod page;
mod printing;
mod spelling;
mod types;
mod words;

pub use demands::{Demand, Demands, Known, Span};
pub use laws::{a_text_has_the_tokens_of_its_marks, places_change_no_count_of_sites};
pub use marks::{Mark, Sheet, Sign};
pub use order::Kind;
pub use printing::print_module;
pub use words::Word;
