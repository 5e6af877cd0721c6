//! Components of sets of functions, the site on which the search branches, and how many nodes its tree has.
#![tactic(auto)]

mod arcs;
mod choice;
mod classes;
mod count;
mod cycles;
mod laws;
mod marks;
mod orientation;
mod parts;
mod places;
mod sets;
mod states;
mod unions;

pub use choice::choose;
pub use count::count_nodes;
pub use laws::{
    a_state_has_one_tree, components_are_joined_by_chains, components_of_a_closed_set_are_closed,
};
pub use marks::{Marks, is_bridge};
pub use parts::{Parts, components};
pub use sets::FuncSet;
