//! Certificates that a map of call sites gives the least text: the value and its text.
#![tactic(auto)]

mod certificates;
mod faults;
mod forms;
mod heads;
mod laws;
mod lines;
mod map_lines;
mod nodes;
mod places;
mod printing;
mod reading;
mod tree_lines;
mod trees;
mod words;

pub use certificates::Certificate;
pub use faults::CertFault;
pub use forms::{MOST_DEPTH_1, MOST_DEPTH_2};
pub use laws::nodes_are_those_of_one_tree;
pub use nodes::{CertNode, CertNodes, FuncList};
pub use printing::print_certificate;
pub use reading::read_certificate;
pub use trees::CertTree;
