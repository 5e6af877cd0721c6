//! The grammar of the accepted text: the forms of its entities, which lists of tokens each has, and which module a
//! text is (docs/ACCEPTED_TEXT.md).
#![tactic(auto)]

mod kinds;
mod laws;
mod parts;
mod which;

pub use kinds::{Barred, Kind};
pub use laws::{
    a_fault_stands_at_a_piece, a_limit_is_exceeded_there, a_read_module_is_readable,
    a_text_has_one_module, a_text_is_read_exactly, limits_leave_the_module,
    the_refused_token_is_the_first,
};
pub use parts::{Attribute, Definition, Definitions, Draft, Entity, Lines, Marks, Progress, Stand};
pub use which::Which;
