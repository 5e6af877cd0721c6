ghost use Rattle.std.specs.Prelude.{◌≡◌};
ghost use Rattle.elf_object.specs.declared.fault.ElfFault.TheVariants.{NoMemory};

use thiserror::Error;

/// What a check of an ELF file looks at.
#[derive(Clone, Copy, Debug, PartialEq, Eq)]
pub enum ElfField {
    /// The file's length.
    Length,
    /// A field of the header, but for the place of the section headers.
    Header,
    /// A field of a program header.
    Program,
    /// The place of the section headers.
    Shoff,
    /// A field of a section header.
    Section,
    /// A byte between two parts.
    Gap,
    /// A field of an entry of the symbol table.
    Symbol,
    /// A byte of the string table.
    Strings,
    /// A byte of the section names.
    Names,
}

/// Why bytes are not the file of an image.
#[derive(Clone, Copy, Debug, PartialEq, Eq, Error)]
pub enum ElfFault {
    /// The first failed check: what it looked at, the place of its first byte in the file, and the number that
    /// stands there.
    #[error("wrong {field:?} at offset {offset}: {found}")]
    Field {
        field: ElfField,
        offset: u32,
        found: u32,
    },
    #[error("out of memory")]
    NoMemory,
}

impl From<oi_base::NoMemory> for ElfFault {
    ghost from_gives = { λ _ e. e ≡ NoMemory };

    fn from(_error: oi_base::NoMemory) -> ElfFault {
        ElfFault::NoMemory
    }
}
