//! Reading from left to right with one token in view: the phrases that stand in instructions and entities, which are
//! names, types, values, initialisers, groups, attributes and notes.
#![tactic(auto)]

mod ahead;
mod attributes;
mod cursor;
mod fault;
mod groups;
mod making;
mod names;
mod reader;
mod table;
mod token_kinds;
mod types;
mod values;
mod words;

pub use attributes::no_marks;
pub use fault::ReadFault;
pub use making::{push, push_short, text};
pub use reader::Reader;
pub use table::Table;
