//! The strongly connected components of a directed graph.
#![tactic(auto)]

mod edge;
mod marks;
mod starts;
mod walk;

pub use edge::Edge;
pub use marks::{are_joined, mark_at};
pub use walk::{Graph, Mark, components};
