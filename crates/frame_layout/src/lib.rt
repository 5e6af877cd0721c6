//! Where the frame of a body keeps each register.
#![tactic(auto)]

mod faults;
mod frame;
mod homes;
mod laws;
mod laying;
mod parts;
#[cfg(test)]
mod tests;

pub use faults::FrameFault;
pub use frame::Frame;
pub use laws::{homes_lie_apart, registers_have_homes};
pub use laying::{LARGEST_FRAME, layout};
