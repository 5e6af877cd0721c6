//! The call graph of a module: its sites, which functions are reached, and which sites are candidates for inlining.
#![tactic(auto)]

mod calls;
mod description;
mod edges;
mod facts;
mod functions;
mod laws;
mod sites;
#[cfg(test)]
mod tests;

pub use calls::{CallGraph, graph};
pub use functions::Functions;
pub use laws::candidates_form_no_cycle;
pub use sites::{Site, sites_of};
