//! Shapes: functions with the callees that are inlined in them, shared among the states of a search.
#![tactic(auto)]

mod forest;
mod laws;
mod renewal;
mod shape;
mod weigh;

pub use forest::Forest;
pub use laws::{a_map_has_one_forest, trees_of_those_that_reach_are_counted};
pub use shape::{Inlined, MOST_WEIGHT, Shape};
