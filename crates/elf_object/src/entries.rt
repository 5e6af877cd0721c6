//! The entries of a symbol table.

ghost use Rattle.std.specs.Prelude.{◌≡◌};
ghost use Rattle.elf_object.specs.File.{info_of, section_of, entry, zero_entry};

use crate::elf32::Sym;
use crate::symbol::{SymKind, Symbol};

/// The type of a symbol, with its binding in the upper four bits.
pub fn info_of(kind: SymKind, global: bool) -> u8
    ensures { result ≡ info_of kind global }
{
    let symbol_type = match kind {
        SymKind::Func => 2,
        SymKind::Object => 1,
    };
    if global {
        16 + symbol_type
    } else {
        symbol_type
    }
}

/// The number of the section that a symbol of this kind stands in.
pub fn section_of(kind: SymKind) -> u16
    ensures { result ≡ section_of kind }
{
    match kind {
        SymKind::Func => 1,
        SymKind::Object => 2,
    }
}

/// The entry of a symbol whose name is at this place of the string table.
#[tactic(auto, unfolding(crate::specs::File::entry))]
pub fn entry(name_at: u64, symbol: &Symbol) -> Sym
    ensures { result ≡ entry name_at symbol.now }
{
    Sym {
        st_name: name_at,
        st_value: u64::from(symbol.value),
        st_size: u64::from(symbol.size),
        st_info: info_of(symbol.kind, symbol.global),
        st_other: 0,
        st_shndx: section_of(symbol.kind),
    }
}

#[tactic(auto, unfolding(crate::specs::File::zero_entry))]
pub fn zero_entry() -> Sym
    ensures { result ≡ zero_entry }
{
    Sym {
        st_name: 0,
        st_value: 0,
        st_size: 0,
        st_info: 0,
        st_other: 0,
        st_shndx: 0,
    }
}
