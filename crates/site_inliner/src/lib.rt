//! Flat bodies: the plain ones of a module's functions, and those in which inlined calls give way to the bodies of their callees.
#![tactic(auto)]

mod draft;
mod ends;
mod extents;
mod laws;
mod locals;
mod lookup;
mod names;
mod offsets;
mod operands;
mod paths;
mod plain;
mod points;
mod renumber;
mod rows;
mod tables;

pub use laws::{bodies_without_inlined_sites_are_plain, worked_bodies};
pub use plain::Bodies;
