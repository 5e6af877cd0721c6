use oi_base::{Items, Text};

/// What a symbol names: a function in the text, or an object in the data.
#[derive(Clone, Copy, Debug, PartialEq, Eq)]
pub enum SymKind {
    Func,
    Object,
}

/// A symbol of an image: a name for `size` bytes from the address `value` on.
#[derive(Debug, Drop)]
pub struct Symbol {
    pub name: Text,
    pub value: u32,
    pub size: u32,
    pub kind: SymKind,
    pub global: bool,
}

/// A list of symbols.
pub type Symbols = Items<Symbol>;
