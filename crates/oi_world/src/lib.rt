//! The desk: where a run reads and writes files, and where it says text.
#![tactic(auto)]

mod desk;
mod file;
mod files;
mod mem;

pub use desk::{Desk, DeskFault};
pub use file::FileDesk;
pub use mem::MemDesk;
