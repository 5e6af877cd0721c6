//! The ELF file of an executable for 32-bit RISC-V, written from an image and read back exactly.
#![tactic(auto)]

mod checks;
mod elf32;
mod entries;
mod fault;
mod image;
mod layout;
mod reading;
mod symbol;
mod tables;
mod writing;

pub use fault::{ElfFault, ElfField};
pub use image::{Image, LARGEST_DATA, LARGEST_TABLES, LARGEST_TEXT, LEAST_TEXT};
pub use reading::read_elf;
pub use symbol::{SymKind, Symbol, Symbols};
pub use writing::write_elf;
