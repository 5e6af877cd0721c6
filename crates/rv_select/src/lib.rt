//! Instructions of flat bodies as instructions of the machine: the table, when a state of the machine stands for one of
//! a run, and the law that an object so made does what its program does.
#![tactic(auto)]

mod builder;
mod code;
mod ends;
mod faults;
mod incoming;
mod instrs;
mod item;
mod laws;
mod pieces;
mod selecting;
mod settling;

pub use code::Code;
pub use faults::{Cause, NoSize, SelectFault};
pub use item::Item;
pub use laws::{
    branches_settle, calls_are_paired, sums_are_carried_out, sums_are_refined, worked_branches,
    worked_codes,
};
pub use pieces::{hi, lo};
pub use selecting::{LARGEST_CODE, select};
