//! The machine that runs an executable image, one instruction at a time.
//!
//! It is one hart of RV32IM, as the RISC-V Instruction Set Manual, Volume I: Unprivileged ISA has it, with
//! a fixed map of its memory and three calls of its environment.
#![tactic(auto)]

mod arithmetic;
mod bytes;
mod effect;
mod laws;
mod machine;
mod map;
mod memory;
mod registers;
mod stop;
mod streams;

pub use laws::a_bounded_run_is_a_run;
pub use machine::Machine;
pub use stop::Stop;
