//! The image of a module's codes: the text with all addresses filled in, the data and the symbols.
#![tactic(auto)]

mod addresses;
mod data;
mod entries;
mod faults;
mod imaging;
mod initialisers;
mod laws;
mod symbols;
mod text;

pub use entries::main_function;
pub use faults::ImageFault;
pub use imaging::image;
pub use laws::{an_image_is_laid, an_image_is_within_bounds};
