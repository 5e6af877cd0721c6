//! Sizes of bodies and of maps from call sites to labels, and the lower bound of all completions of a partial map.
#![tactic(auto)]

mod laws;

pub use laws::{
    low_bounds_all_completions, parts_are_independent, settled_sizes_are_the_same,
    the_least_is_the_sum_over_components, the_reached_sites_are_a_key,
    the_test_of_who_is_kept_is_exact, trees_of_forests_are_those_of_maps,
};
