//! The instructions of RV32IM, their words, and what a machine does that executes them.
//!
//! The rules are those of the RISC-V Instruction Set Manual, Volume I: Unprivileged ISA: the base RV32I
//! and the extension M for multiplication and division.
#![tactic(auto)]

mod decoding;
mod encoding;
mod fields;
mod laws;
mod memory_map;
mod rv;

pub use decoding::decode;
pub use encoding::{EBREAK_WORD, ECALL_WORD, encode};
pub use laws::{
    a_stopped_machine_stays, a_write_is_read, an_encoded_instruction_decodes,
    an_instruction_in_the_text_is_executed, an_object_of_a_follower_refines, output_only_grows,
    the_text_stays, worked_examples,
};
pub use memory_map::{
    DATA_START, GUARD_SIZE, GUARD_START, STACK_END, STACK_SIZE, STACK_START, TEXT_START,
};
pub use rv::{Rv, X};
