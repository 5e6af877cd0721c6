//! The lexer of the accepted text: tokens and their places are functions of the bytes. Spaces, tabs, carriage returns and
//! line feeds separate tokens, and a comment runs from `;` to the end of its line.
#![tactic(auto)]

mod alphabet;
mod fault;
mod laws;
mod lexing;
mod listing;
mod places;
mod scanning;
mod strings;
mod table;

pub use fault::LexFault;
pub use laws::{lexing_is_a_function, tokens_are_those_of_the_table};
pub use lexing::Lexer;
pub use listing::tokens;
pub use table::{Spot, Token};
