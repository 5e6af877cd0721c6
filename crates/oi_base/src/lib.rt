//! Numbers of things, places in a text, words of up to 32 bits, lists, and the counter of work.
#![tactic(auto)]

mod error;
mod ids;
mod laws;
mod matching;
mod steps;
#[cfg(test)]
mod tests;
mod words;

pub use error::NoMemory;
pub use ids::{BlockId, FuncId, Place, RegId, SiteId};
pub use laws::followers_chain;
pub use matching::{TurnByTurn, a_simulation_shows_each_run_in_the_other};
pub use sqlite_items::{Boxed, Items};
pub use steps::Steps;
pub use words::{Width, mask, sext};

/// A list of bytes. Like every `Items<T>`, contracts see it as the list of its elements.
pub type Text = Items<u8>;
