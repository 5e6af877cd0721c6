use crate::symbol::Symbols;
use oi_base::Text;
use std::marker::Model;

/// The least size of a text in bytes.
pub const LEAST_TEXT: u32 = 16;

/// The greatest size of a text in bytes.
pub const LARGEST_TEXT: u32 = 4_194_304;

/// The greatest size of the data in bytes.
pub const LARGEST_DATA: u32 = 1_048_576;

/// The greatest size in bytes of the symbol table and the string table together.
pub const LARGEST_TABLES: u32 = 1_073_741_824;

/// What an executable file holds: the bytes of the text and of the data, and the symbols. Contracts see the
/// record of the three.
///
/// The text has `LEAST_TEXT` to `LARGEST_TEXT` bytes, a multiple of 4. The data have at most `LARGEST_DATA`.
/// The local symbols stand first, each name has a byte and no zero byte, and the symbol table and the string
/// table that the symbols take in the file have at most `LARGEST_TABLES` bytes together.
#[derive(Debug, Drop)]
pub struct Image {
    pub text: Text,
    pub data_bytes: Text,
    pub symbols: Symbols,
}

impl Model for Image {
    ghost use Rattle.elf_object.specs.Image.{Parts, IsImage};

    ghost Value = { Parts };

    ghost view = { λ i. record { text = i.text; data_bytes = i.data_bytes; symbols = i.symbols } };

    ghost invariant = { λ i. IsImage (record { text = i.text; data_bytes = i.data_bytes; symbols = i.symbols }) };
}
