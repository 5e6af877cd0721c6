//! The folding of branches, the dropping of unreached blocks and the merging of blocks of flat bodies.
#![tactic(auto)]

mod branches;
mod counts;
mod entries;
mod laws;
mod merger;
mod merging;
mod numbering;
mod reached;
mod remaining;
mod renaming;
mod terminators;
mod walk;

pub use branches::{branches_pass, fold_branches};
pub use laws::{
    folded_branches_are_formed, merged_blocks_are_formed, reached_blocks_are_formed,
    reached_blocks_have_paths,
};
pub use merging::{merge_blocks, merging_pass};
pub use reached::{drop_unreached, unreached_pass};
