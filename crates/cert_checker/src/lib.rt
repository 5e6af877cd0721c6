//! When a certificate passes, what it breaks first where it does not, and that the map of one that passes is least.
#![tactic(auto)]

mod laws;
mod reason;

pub use laws::{
    a_certificate_passes_where_nothing_is_broken, a_passing_certificate_states_a_least_map,
    a_worth_is_a_bound,
};
pub use reason::Reason;
