//! The tree of the search for a least map, and that the map that it picks is least.
#![tactic(auto)]

mod laws;

pub use laws::{
    a_search_tree_is_not_too_deep, a_state_has_one_search_tree, cuts_take_nothing_away,
    the_picked_map_is_least,
};
