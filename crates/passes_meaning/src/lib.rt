//! That the passes over bodies keep the meaning of programs.
#![tactic(auto)]

mod laws;

pub use laws::{
    dropping_dead_code_keeps_meaning, dropping_unreached_blocks_keeps_meaning,
    folding_branches_keeps_meaning, folding_constants_keeps_meaning, merging_blocks_keeps_meaning,
    replacing_copies_keeps_meaning, simplifying_all_bodies_keeps_meaning,
    simplifying_keeps_meaning,
};
