//! Where each part of the file stands, and the headers that say so.

ghost use Rattle.std.specs.Prelude.{◌≡◌, ◌+◌, ◌<◌, ◌≤◌, ◌^◌};
ghost use Rattle.elf_object.specs.Layout.{data_at, symtab_at, strtab_at, shstrtab_at, sections_at, executable, text_segment, data_segment, null_section, text_section, data_section, symtab_section, strtab_section, shstrtab_section};

use crate::elf32::{Ehdr, Phdr, Shdr};
use rv_isa::{DATA_START, TEXT_START};

/// The place of the program headers in the file: after its header.
pub const SEGMENTS_AT: u64 = 52;

/// The size of a page in bytes. What is loaded begins at a multiple of it, in the file and in memory.
const PAGE: u64 = 4096;

/// The text's place in the file.
pub const TEXT_AT: u64 = PAGE;

/// The names of the sections, as the string table `.shstrtab`.
pub const SECTION_NAMES: &[u8; 39] = b"\0.text\0.data\0.symtab\0.strtab\0.shstrtab\0";

/// The sizes, in bytes, of the four parts of a file that differ from file to file.
#[derive(Clone, Copy)]
pub struct Sizes {
    pub text: u32,
    pub data_bytes: u32,
    pub symtab: u32,
    pub strtab: u32,
}

impl Sizes {
    #[tactic(auto, unfolding(crate::specs::Layout::data_at))]
    pub fn data_at(&self) -> u64
        ensures place { result ≡ data_at self.now }
        ensures bound { result < 2 ^ 33 }
    {
        (TEXT_AT + u64::from(self.text)).next_multiple_of(PAGE)
    }

    #[tactic(auto, unfolding(crate::specs::Layout::symtab_at))]
    pub fn symtab_at(&self) -> u64
        ensures place { result ≡ symtab_at self.now }
        ensures bound { result < 2 ^ 34 }
    {
        (self.data_at() + u64::from(self.data_bytes)).next_multiple_of(4)
    }

    #[tactic(auto, unfolding(crate::specs::Layout::strtab_at))]
    pub fn strtab_at(&self) -> u64
        ensures place { result ≡ strtab_at self.now }
        ensures bound { result < 2 ^ 35 }
    {
        self.symtab_at() + u64::from(self.symtab)
    }

    #[tactic(auto, unfolding(crate::specs::Layout::shstrtab_at))]
    pub fn shstrtab_at(&self) -> u64
        ensures place { result ≡ shstrtab_at self.now }
        ensures bound { result < 2 ^ 36 }
    {
        self.strtab_at() + u64::from(self.strtab)
    }

    #[tactic(auto, unfolding(crate::specs::Layout::sections_at))]
    pub fn sections_at(&self) -> u64
        ensures place { result ≡ sections_at self.now }
        ensures bound { result < 2 ^ 37 }
    {
        (self.shstrtab_at() + 39).next_multiple_of(4)
    }
}

/// The header of an executable for RISC-V whose section headers stand at this place.
#[tactic(auto, unfolding(crate::specs::Layout::executable))]
pub fn executable(e_shoff: u64) -> Ehdr
    ensures { result ≡ executable e_shoff }
{
    Ehdr {
        e_type: 2,
        e_machine: 243,
        e_version: 1,
        e_entry: u64::from(TEXT_START),
        e_phoff: SEGMENTS_AT,
        e_shoff,
        e_flags: 0,
        e_ehsize: 52,
        e_phentsize: 32,
        e_phnum: 2,
        e_shentsize: 40,
        e_shnum: 6,
        e_shstrndx: 5,
    }
}

#[tactic(auto, unfolding(crate::specs::Layout::text_segment))]
pub fn text_segment(sizes: &Sizes) -> Phdr
    ensures { result ≡ text_segment sizes.now }
{
    Phdr {
        p_type: 1,
        p_offset: TEXT_AT,
        p_vaddr: u64::from(TEXT_START),
        p_paddr: u64::from(TEXT_START),
        p_filesz: u64::from(sizes.text),
        p_memsz: u64::from(sizes.text),
        p_flags: 5,
        p_align: PAGE,
    }
}

#[tactic(auto, unfolding(crate::specs::Layout::data_segment))]
pub fn data_segment(sizes: &Sizes) -> Phdr
    ensures { result ≡ data_segment sizes.now }
{
    Phdr {
        p_type: 1,
        p_offset: sizes.data_at(),
        p_vaddr: u64::from(DATA_START),
        p_paddr: u64::from(DATA_START),
        p_filesz: u64::from(sizes.data_bytes),
        p_memsz: u64::from(sizes.data_bytes),
        p_flags: 6,
        p_align: PAGE,
    }
}

#[tactic(auto, unfolding(crate::specs::Layout::null_section))]
pub fn null_section() -> Shdr
    ensures { result ≡ null_section }
{
    Shdr {
        sh_name: 0,
        sh_type: 0,
        sh_flags: 0,
        sh_addr: 0,
        sh_offset: 0,
        sh_size: 0,
        sh_link: 0,
        sh_info: 0,
        sh_addralign: 0,
        sh_entsize: 0,
    }
}

#[tactic(auto, unfolding(crate::specs::Layout::text_section))]
pub fn text_section(sizes: &Sizes) -> Shdr
    ensures { result ≡ text_section sizes.now }
{
    Shdr {
        sh_name: 1,
        sh_type: 1,
        sh_flags: 6,
        sh_addr: u64::from(TEXT_START),
        sh_offset: TEXT_AT,
        sh_size: u64::from(sizes.text),
        sh_link: 0,
        sh_info: 0,
        sh_addralign: 4,
        sh_entsize: 0,
    }
}

#[tactic(auto, unfolding(crate::specs::Layout::data_section))]
pub fn data_section(sizes: &Sizes) -> Shdr
    ensures { result ≡ data_section sizes.now }
{
    Shdr {
        sh_name: 7,
        sh_type: 1,
        sh_flags: 3,
        sh_addr: u64::from(DATA_START),
        sh_offset: sizes.data_at(),
        sh_size: u64::from(sizes.data_bytes),
        sh_link: 0,
        sh_info: 0,
        sh_addralign: 16,
        sh_entsize: 0,
    }
}

/// The header of the symbol table, in which this many symbols are local.
#[tactic(auto, unfolding(crate::specs::Layout::symtab_section))]
pub fn symtab_section(sizes: &Sizes, first_global: u64) -> Shdr
    ensures { result ≡ symtab_section sizes.now first_global }
{
    Shdr {
        sh_name: 13,
        sh_type: 2,
        sh_flags: 0,
        sh_addr: 0,
        sh_offset: sizes.symtab_at(),
        sh_size: u64::from(sizes.symtab),
        sh_link: 4,
        sh_info: first_global,
        sh_addralign: 4,
        sh_entsize: 16,
    }
}

#[tactic(auto, unfolding(crate::specs::Layout::strtab_section))]
pub fn strtab_section(sizes: &Sizes) -> Shdr
    ensures { result ≡ strtab_section sizes.now }
{
    Shdr {
        sh_name: 21,
        sh_type: 3,
        sh_flags: 0,
        sh_addr: 0,
        sh_offset: sizes.strtab_at(),
        sh_size: u64::from(sizes.strtab),
        sh_link: 0,
        sh_info: 0,
        sh_addralign: 1,
        sh_entsize: 0,
    }
}

#[tactic(auto, unfolding(crate::specs::Layout::shstrtab_section))]
pub fn shstrtab_section(sizes: &Sizes) -> Shdr
    ensures { result ≡ shstrtab_section sizes.now }
{
    Shdr {
        sh_name: 29,
        sh_type: 3,
        sh_flags: 0,
        sh_addr: 0,
        sh_offset: sizes.shstrtab_at(),
        sh_size: 39,
        sh_link: 0,
        sh_info: 0,
        sh_addralign: 1,
        sh_entsize: 0,
    }
}
