//! The reader of the accepted text: from tokens to a module (docs/ACCEPTED_TEXT.md).
#![tactic(auto)]

mod entities;
mod functions;
mod module;
mod noinline;
mod read;

pub use ir_grammar::Which;
pub use ir_phrases::ReadFault;
pub use read::read_module;
