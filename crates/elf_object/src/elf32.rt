//! The structures of ELF32 as fields in file order ("Executable and Linking Format", version 1.2, book I).
//! A word is an exact number, also where it is too great for its four bytes.

ghost use Rattle.std.specs.Prelude.{◌≡◌, ◌++◌, OnOk};
ghost use Rattle.elf_object.specs.Elf32.{ehdr_fields, phdr_fields, shdr_fields, sym_fields, field_bytes, fields_bytes, span};

use oi_base::NoMemory;

/// A field: a byte, an `Elf32_Half`, or an `Elf32_Word`, `Elf32_Addr` or `Elf32_Off`.
#[derive(Clone, Copy)]
pub enum Field {
    Byte(u8),
    Half(u16),
    Word(u64),
}

/// `Elf32_Ehdr`, the header of a file.
#[derive(Clone, Copy)]
pub struct Ehdr {
    pub e_type: u16,
    pub e_machine: u16,
    pub e_version: u64,
    pub e_entry: u64,
    pub e_phoff: u64,
    pub e_shoff: u64,
    pub e_flags: u64,
    pub e_ehsize: u16,
    pub e_phentsize: u16,
    pub e_phnum: u16,
    pub e_shentsize: u16,
    pub e_shnum: u16,
    pub e_shstrndx: u16,
}

/// `Elf32_Phdr`, a program header.
#[derive(Clone, Copy)]
pub struct Phdr {
    pub p_type: u64,
    pub p_offset: u64,
    pub p_vaddr: u64,
    pub p_paddr: u64,
    pub p_filesz: u64,
    pub p_memsz: u64,
    pub p_flags: u64,
    pub p_align: u64,
}

/// `Elf32_Shdr`, a section header.
#[derive(Clone, Copy)]
pub struct Shdr {
    pub sh_name: u64,
    pub sh_type: u64,
    pub sh_flags: u64,
    pub sh_addr: u64,
    pub sh_offset: u64,
    pub sh_size: u64,
    pub sh_link: u64,
    pub sh_info: u64,
    pub sh_addralign: u64,
    pub sh_entsize: u64,
}

/// `Elf32_Sym`, an entry of a symbol table.
#[derive(Clone, Copy)]
pub struct Sym {
    pub st_name: u64,
    pub st_value: u64,
    pub st_size: u64,
    pub st_info: u8,
    pub st_other: u8,
    pub st_shndx: u16,
}

impl Ehdr {
    #[tactic(auto, unfolding(crate::specs::Elf32::ehdr_fields))]
    pub fn fields(&self) -> [Field; 29]
        ensures fields { result ≡ ehdr_fields self.now }
        ensures span { span result ≡ 52 }
    {
        [
            Field::Byte(0x7f),
            Field::Byte(b'E'),
            Field::Byte(b'L'),
            Field::Byte(b'F'),
            Field::Byte(1),
            Field::Byte(1),
            Field::Byte(1),
            Field::Byte(0),
            Field::Byte(0),
            Field::Byte(0),
            Field::Byte(0),
            Field::Byte(0),
            Field::Byte(0),
            Field::Byte(0),
            Field::Byte(0),
            Field::Byte(0),
            Field::Half(self.e_type),
            Field::Half(self.e_machine),
            Field::Word(self.e_version),
            Field::Word(self.e_entry),
            Field::Word(self.e_phoff),
            Field::Word(self.e_shoff),
            Field::Word(self.e_flags),
            Field::Half(self.e_ehsize),
            Field::Half(self.e_phentsize),
            Field::Half(self.e_phnum),
            Field::Half(self.e_shentsize),
            Field::Half(self.e_shnum),
            Field::Half(self.e_shstrndx),
        ]
    }
}

impl Phdr {
    #[tactic(auto, unfolding(crate::specs::Elf32::phdr_fields))]
    pub fn fields(&self) -> [Field; 8]
        ensures fields { result ≡ phdr_fields self.now }
        ensures span { span result ≡ 32 }
    {
        [
            Field::Word(self.p_type),
            Field::Word(self.p_offset),
            Field::Word(self.p_vaddr),
            Field::Word(self.p_paddr),
            Field::Word(self.p_filesz),
            Field::Word(self.p_memsz),
            Field::Word(self.p_flags),
            Field::Word(self.p_align),
        ]
    }
}

impl Shdr {
    #[tactic(auto, unfolding(crate::specs::Elf32::shdr_fields))]
    pub fn fields(&self) -> [Field; 10]
        ensures fields { result ≡ shdr_fields self.now }
        ensures span { span result ≡ 40 }
    {
        [
            Field::Word(self.sh_name),
            Field::Word(self.sh_type),
            Field::Word(self.sh_flags),
            Field::Word(self.sh_addr),
            Field::Word(self.sh_offset),
            Field::Word(self.sh_size),
            Field::Word(self.sh_link),
            Field::Word(self.sh_info),
            Field::Word(self.sh_addralign),
            Field::Word(self.sh_entsize),
        ]
    }
}

impl Sym {
    #[tactic(auto, unfolding(crate::specs::Elf32::sym_fields))]
    pub fn fields(&self) -> [Field; 6]
        ensures fields { result ≡ sym_fields self.now }
        ensures span { span result ≡ 16 }
    {
        [
            Field::Word(self.st_name),
            Field::Word(self.st_value),
            Field::Word(self.st_size),
            Field::Byte(self.st_info),
            Field::Byte(self.st_other),
            Field::Half(self.st_shndx),
        ]
    }
}

fn put_field(out: &mut Vec<u8>, field: Field) -> Result<(), NoMemory>
    ensures { OnOk result (out.new.items ≡ out.old.items ++ field_bytes field) }
{
    match field {
        Field::Byte(n) => out.push(n)?,
        Field::Half(n) => out.extend_from_slice(&n.to_le_bytes())?,
        Field::Word(n) => out.extend_from_slice(&n.to_le_bytes()[..4])?,
    }
    Ok(())
}

/// Appends the bytes of the fields, each with its lowest byte first.
pub fn put_fields(out: &mut Vec<u8>, fields: &[Field]) -> Result<(), NoMemory>
    ensures { OnOk result (out.new.items ≡ out.old.items ++ fields_bytes fields.now) }
{
    for field in fields {
        put_field(out, *field)?;
    }
    Ok(())
}
