//! The verifier: which rule of the accepted IR a module breaks first, and where (docs/RULES.md). The rules of functions stand
//! here, those of the module as a whole in `module_rules`.
#![tactic(auto)]

mod callees;
mod calls;
mod cases;
mod constants;
mod entry;
mod fault;
mod kinds;
mod laws;
mod meanings;
mod names;
mod offsets;
mod phis;
mod positions;
mod predecessors;
mod references;
mod registers;
mod scope;
mod types;
mod verdict;

pub use fault::RuleFault;
pub use laws::a_module_has_one_verdict;
pub use offsets::gep_offset;
pub use verdict::verify;
