ghost use Rattle.std.specs.Prelude.{◌≡◌, ◌+◌, ◌-◌, ◌*◌, ◌/◌, ◌<◌, ◌≤◌, ◌^◌, ℕ, Bool, IsTrue, length, take, drop, All, IfOk, Ok, MatchResult};
ghost use Rattle.elf_object.specs.declared.fault.ElfField.TheVariants as ElfField;
ghost use Rattle.elf_object.specs.declared.fault.ElfFault.TheVariants as ElfFault;
ghost use Rattle.elf_object.specs.Image.{Parts, IsImage, HasWords};
ghost use Rattle.elf_object.specs.File.{elf};
ghost use Rattle.elf_object.specs.Elf32.{phdr_fields, shdr_fields};
ghost use Rattle.elf_object.specs.Layout.{data_at, symtab_at, strtab_at, shstrtab_at, sections_at};
ghost use Rattle.elf_object.specs.Checks.{Answers, IsEnded, IsLaidOut, first_failed, field_checks, permitted, is_text_size, is_data_size, is_symtab_size, is_first_global, is_strtab_size, word_at, shoff, info, loaded_sizes, sizes, length_checks, header_checks, wanted_text_segment, wanted_data_segment, program_checks, end_checks, wanted_symtab_section, wanted_strtab_section, loaded_section_checks, linking_section_checks, place_checks, gap_checks, front_checks, layout_checks, symbols, symbol_checks, string_checks, section_name_checks, table_checks, checks, image};

use crate::checks::{check, check_bytes, check_fields, check_zeros, word_at};
use crate::elf32::{Field, Phdr, Shdr};
use crate::entries::zero_entry;
use crate::fault::{ElfFault, ElfField};
use crate::image::{Image, LARGEST_DATA, LARGEST_TABLES, LARGEST_TEXT, LEAST_TEXT};
use crate::layout::{
    SECTION_NAMES, SEGMENTS_AT, Sizes, TEXT_AT, data_section, data_segment, executable,
    null_section, shstrtab_section, strtab_section, symtab_section, text_section, text_segment,
};
use crate::symbol::{Symbol, Symbols};
use crate::tables::{check_entries, check_strings, symbols_at};
use oi_base::{NoMemory, Text};
use std::alloc::Global;

/// The least number that is no word of 32 bits.
const NO_WORD: u64 = 0x1_0000_0000;

/// The number that was found where it is permitted, else one that no field has.
#[tactic(auto, unfolding(crate::specs::Checks::permitted))]
fn permitted(ok: bool, found: u32) -> u64
    ensures { result ≡ permitted ok found }
{
    if ok { u64::from(found) } else { NO_WORD }
}

fn is_text_size(n: u32) -> bool
    ensures { result ≡ is_text_size n }
{
    LEAST_TEXT <= n && n <= LARGEST_TEXT && n % 4 == 0
}

fn is_data_size(n: u32) -> bool
    ensures { result ≡ is_data_size n }
{
    n <= LARGEST_DATA
}

fn is_symtab_size(n: u32) -> bool
    ensures { result ≡ is_symtab_size n }
{
    n % 16 == 0 && 16 <= n
}

fn is_first_global(symtab: u32, n: u32) -> bool
    ensures { result ≡ is_first_global symtab n }
{
    1 <= n && n <= symtab / 16
}

fn is_strtab_size(symtab: u32, n: u32) -> bool
    ensures { result ≡ is_strtab_size symtab n }
{
    1 <= n && u64::from(symtab) + u64::from(n) <= u64::from(LARGEST_TABLES)
}

#[tactic(auto, unfolding(crate::specs::Checks::length_checks))]
fn check_length(bytes: &[u8]) -> Result<(), ElfFault>
    requires { length bytes.now < 2 ^ 32 }
    ensures { result ≡ first_failed (length_checks bytes.now) }
{
    let len = bytes.len();
    check(ElfField::Length, 0, len as u32, len >= 116)
}

/// The place of the section headers, as the header says.
#[tactic(auto, unfolding(crate::specs::Checks::shoff))]
fn shoff(bytes: &[u8]) -> u32
    requires { 116 ≤ length bytes.now }
    ensures { result ≡ shoff bytes.now }
{
    word_at(bytes, 32)
}

#[tactic(auto, unfolding(crate::specs::Checks::header_checks))]
fn check_header(bytes: &[u8]) -> Result<(), ElfFault>
    requires long { 116 ≤ length bytes.now }
    requires short { length bytes.now < 2 ^ 32 }
    ensures { result ≡ first_failed (header_checks bytes.now) }
{
    let wanted = executable(u64::from(shoff(bytes))).fields();
    check_fields(bytes, ElfField::Header, 0, &wanted)
}

#[tactic(auto, unfolding(crate::specs::Checks::wanted_text_segment))]
fn wanted_text_segment(sizes: &Sizes) -> Phdr
    ensures { result ≡ wanted_text_segment sizes.now }
{
    Phdr {
        p_filesz: permitted(is_text_size(sizes.text), sizes.text),
        ..text_segment(sizes)
    }
}

#[tactic(auto, unfolding(crate::specs::Checks::wanted_data_segment))]
fn wanted_data_segment(sizes: &Sizes) -> Phdr
    ensures { result ≡ wanted_data_segment sizes.now }
{
    Phdr {
        p_filesz: permitted(is_data_size(sizes.data_bytes), sizes.data_bytes),
        ..data_segment(sizes)
    }
}

/// The sizes that the program headers say.
#[tactic(auto, unfolding(crate::specs::Checks::loaded_sizes))]
fn loaded_sizes(bytes: &[u8]) -> Sizes
    requires { 116 ≤ length bytes.now }
    ensures { result ≡ loaded_sizes bytes.now }
{
    Sizes {
        text: word_at(bytes, 68),
        data_bytes: word_at(bytes, 100),
        symtab: 0,
        strtab: 0,
    }
}

fn check_segment(bytes: &[u8], at: usize, wanted: &Phdr) -> Result<(), ElfFault>
    requires within { at + 32 ≤ length bytes.now }
    requires short { length bytes.now < 2 ^ 32 }
    ensures { result ≡ first_failed (field_checks ElfField.Program bytes.now at (phdr_fields wanted.now)) }
{
    check_fields(bytes, ElfField::Program, at, &wanted.fields())
}

#[tactic(auto, using(crate::proofs::CheckGroups::groups), unfolding(crate::specs::Checks::program_checks))]
fn check_program(bytes: &[u8]) -> Result<(), ElfFault>
    requires long { 116 ≤ length bytes.now }
    requires short { length bytes.now < 2 ^ 32 }
    ensures { result ≡ first_failed (program_checks bytes.now) }
{
    let sizes = loaded_sizes(bytes);
    check_segment(bytes, SEGMENTS_AT as usize, &wanted_text_segment(&sizes))?;
    check_segment(
        bytes,
        SEGMENTS_AT as usize + 32,
        &wanted_data_segment(&sizes),
    )
}

#[tactic(auto, unfolding(crate::specs::Checks::end_checks))]
fn check_end(bytes: &[u8]) -> Result<(), ElfFault>
    requires long { 116 ≤ length bytes.now }
    requires short { length bytes.now < 2 ^ 32 }
    ensures { result ≡ first_failed (end_checks bytes.now) }
{
    let shoff = shoff(bytes);
    check(
        ElfField::Shoff,
        32,
        shoff,
        shoff as usize + 240 == bytes.len(),
    )
}

#[tactic(auto, unfolding(crate::specs::Checks::sizes))]
fn sizes(bytes: &[u8]) -> Sizes
    requires { IsEnded bytes.now }
    ensures { result ≡ sizes bytes.now }
{
    let at = shoff(bytes) as usize;
    Sizes {
        text: word_at(bytes, 68),
        data_bytes: word_at(bytes, 100),
        symtab: word_at(bytes, at + 140),
        strtab: word_at(bytes, at + 180),
    }
}

#[tactic(auto, unfolding(crate::specs::Checks::info))]
fn info(bytes: &[u8]) -> u32
    requires { IsEnded bytes.now }
    ensures { result ≡ info bytes.now }
{
    word_at(bytes, shoff(bytes) as usize + 148)
}

#[tactic(auto, unfolding(crate::specs::Checks::wanted_symtab_section))]
fn wanted_symtab_section(sizes: &Sizes, first_global: u32) -> Shdr
    ensures { result ≡ wanted_symtab_section sizes.now first_global }
{
    Shdr {
        sh_size: permitted(is_symtab_size(sizes.symtab), sizes.symtab),
        sh_info: permitted(is_first_global(sizes.symtab, first_global), first_global),
        ..symtab_section(sizes, u64::from(first_global))
    }
}

#[tactic(auto, unfolding(crate::specs::Checks::wanted_strtab_section))]
fn wanted_strtab_section(sizes: &Sizes) -> Shdr
    ensures { result ≡ wanted_strtab_section sizes.now }
{
    Shdr {
        sh_size: permitted(is_strtab_size(sizes.symtab, sizes.strtab), sizes.strtab),
        ..strtab_section(sizes)
    }
}

fn check_section(bytes: &[u8], at: usize, wanted: &Shdr) -> Result<(), ElfFault>
    requires within { at + 40 ≤ length bytes.now }
    requires short { length bytes.now < 2 ^ 32 }
    ensures { result ≡ first_failed (field_checks ElfField.Section bytes.now at (shdr_fields wanted.now)) }
{
    check_fields(bytes, ElfField::Section, at, &wanted.fields())
}

#[tactic(auto, using(crate::proofs::CheckGroups::groups), unfolding(crate::specs::Checks::loaded_section_checks))]
fn check_loaded_sections(bytes: &[u8]) -> Result<(), ElfFault>
    requires { IsEnded bytes.now }
    ensures { result ≡ first_failed (loaded_section_checks bytes.now) }
{
    let at = shoff(bytes) as usize;
    let sizes = sizes(bytes);
    check_section(bytes, at, &null_section())?;
    check_section(bytes, at + 40, &text_section(&sizes))?;
    check_section(bytes, at + 80, &data_section(&sizes))
}

#[tactic(auto, using(crate::proofs::CheckGroups::groups), unfolding(crate::specs::Checks::linking_section_checks))]
fn check_linking_sections(bytes: &[u8]) -> Result<(), ElfFault>
    requires { IsEnded bytes.now }
    ensures { result ≡ first_failed (linking_section_checks bytes.now) }
{
    let at = shoff(bytes) as usize;
    let sizes = sizes(bytes);
    check_section(bytes, at + 120, &wanted_symtab_section(&sizes, info(bytes)))?;
    check_section(bytes, at + 160, &wanted_strtab_section(&sizes))?;
    check_section(bytes, at + 200, &shstrtab_section(&sizes))
}

#[tactic(auto, unfolding(crate::specs::Checks::place_checks))]
fn check_place(bytes: &[u8]) -> Result<(), ElfFault>
    requires { IsEnded bytes.now }
    ensures { result ≡ first_failed (place_checks bytes.now) }
{
    let shoff = shoff(bytes);
    let place = sizes(bytes).sections_at();
    check(ElfField::Shoff, 32, shoff, u64::from(shoff) == place)
}

#[tactic(auto, using(crate::proofs::CheckGroups::groups, crate::proofs::Places::places), unfolding(crate::specs::Checks::gap_checks))]
fn check_gaps(bytes: &[u8]) -> Result<(), ElfFault>
    requires ended { IsEnded bytes.now }
    requires place { shoff bytes.now ≡ sections_at (sizes bytes.now) }
    ensures { result ≡ first_failed (gap_checks bytes.now) }
{
    let sizes = sizes(bytes);
    let text_end = TEXT_AT as usize + sizes.text as usize;
    let data_at = sizes.data_at() as usize;
    let data_end = data_at + sizes.data_bytes as usize;
    let names_end = sizes.shstrtab_at() as usize + 39;
    check_zeros(bytes, 116, TEXT_AT as usize)?;
    check_zeros(bytes, text_end, data_at)?;
    check_zeros(bytes, data_end, sizes.symtab_at() as usize)?;
    check_zeros(bytes, names_end, sizes.sections_at() as usize)
}

/// The length, the header, the program headers and the place of the section headers.
#[tactic(auto, using(crate::proofs::CheckGroups::groups, crate::proofs::PassedChecks::passed_facts), unfolding(crate::specs::Checks::front_checks))]
fn check_front(bytes: &[u8]) -> Result<(), ElfFault>
    requires { length bytes.now < 2 ^ 32 }
    ensures { result ≡ first_failed (front_checks bytes.now) }
{
    check_length(bytes)?;
    check_header(bytes)?;
    check_program(bytes)?;
    check_end(bytes)
}

/// The section headers, their place and the gaps.
#[tactic(auto, using(crate::proofs::CheckGroups::groups, crate::proofs::PassedChecks::passed_facts), unfolding(crate::specs::Checks::layout_checks))]
fn check_layout(bytes: &[u8]) -> Result<(), ElfFault>
    requires { IsEnded bytes.now }
    ensures { result ≡ first_failed (layout_checks bytes.now) }
{
    check_loaded_sections(bytes)?;
    check_linking_sections(bytes)?;
    check_place(bytes)?;
    check_gaps(bytes)
}

/// So many bytes from a place on.
fn part(bytes: &[u8], at: u64, size: u32) -> &[u8]
    requires { at + size ≤ length bytes.now }
    ensures bytes { result.now ≡ take size (drop at bytes.now) }
    ensures len { length result.now ≡ size }
{
    let (_, rest) = bytes.split_at(at as usize);
    &rest[..size as usize]
}

/// The symbols that the symbol table and the strings say.
#[tactic(auto, unfolding(crate::specs::Checks::symbols, crate::specs::Checks::strings))]
fn symbols(alloc: Global, bytes: &[u8]) -> Result<Symbols, NoMemory>
    requires { IsLaidOut bytes.now }
    ensures { IfOk result (λ found. found ≡ symbols bytes.now) }
{
    let sizes = sizes(bytes);
    let strings = part(bytes, sizes.strtab_at(), sizes.strtab);
    let at = sizes.symtab_at() as usize + 16;
    symbols_at(
        alloc,
        bytes,
        strings,
        at,
        info(bytes) - 1,
        sizes.symtab / 16 - 1,
    )
}

#[tactic(auto, using(crate::proofs::CheckGroups::groups), unfolding(crate::specs::Checks::symbol_checks))]
fn check_symbols(bytes: &[u8], found: &[Symbol]) -> Result<(), ElfFault>
    requires laid_out { IsLaidOut bytes.now }
    requires found { found.now ≡ symbols bytes.now }
    ensures { result ≡ first_failed (symbol_checks bytes.now) }
{
    let sizes = sizes(bytes);
    let at = sizes.symtab_at() as usize;
    check_fields(bytes, ElfField::Symbol, at, &zero_entry().fields())?;
    check_entries(bytes, sizes.strtab as usize, at + 16, found)
}

#[tactic(auto, using(crate::proofs::CheckGroups::groups), unfolding(crate::specs::Checks::string_checks))]
fn check_string_table(bytes: &[u8], found: &[Symbol]) -> Result<(), ElfFault>
    requires laid_out { IsLaidOut bytes.now }
    requires found { found.now ≡ symbols bytes.now }
    ensures { result ≡ first_failed (string_checks bytes.now) }
{
    let sizes = sizes(bytes);
    let start = sizes.strtab_at() as usize;
    check_fields(bytes, ElfField::Strings, start, &[Field::Byte(0)])?;
    check_strings(bytes, start, sizes.strtab as usize, found)
}

#[tactic(auto, unfolding(crate::specs::Checks::section_name_checks, crate::specs::Layout::section_names))]
fn check_section_names(bytes: &[u8]) -> Result<(), ElfFault>
    requires { IsLaidOut bytes.now }
    ensures { result ≡ first_failed (section_name_checks bytes.now) }
{
    let at = sizes(bytes).shstrtab_at() as usize;
    check_bytes(bytes, ElfField::Names, at, SECTION_NAMES)
}

#[tactic(auto, using(crate::proofs::CheckGroups::groups), unfolding(crate::specs::Checks::table_checks))]
fn check_tables(bytes: &[u8], found: &[Symbol]) -> Result<(), ElfFault>
    requires laid_out { IsLaidOut bytes.now }
    requires found { found.now ≡ symbols bytes.now }
    ensures { result ≡ first_failed (table_checks bytes.now) }
{
    check_symbols(bytes, found)?;
    check_string_table(bytes, found)?;
    check_section_names(bytes)
}

/// The image of a file whose checks passed.
#[tactic(auto, unfolding(crate::specs::Checks::image))]
fn image(alloc: Global, bytes: &[u8], found: Symbols) -> Result<Image, NoMemory>
    requires short { length bytes.now < 2 ^ 32 }
    requires passed { first_failed (checks bytes.now) ≡ Ok tt }
    requires found { found ≡ symbols bytes.now }
    ensures { IfOk result (λ i. i ≡ image bytes.now) }
{
    let sizes = sizes(bytes);
    let text = Text::from_slice(alloc, part(bytes, TEXT_AT, sizes.text))?;
    let data_bytes = Text::from_slice(alloc, part(bytes, sizes.data_at(), sizes.data_bytes))?;
    Ok(Image {
        text,
        data_bytes,
        symbols: found,
    })
}

fn read(alloc: Global, bytes: &[u8]) -> Result<Image, ElfFault>
    requires { length bytes.now < 2 ^ 32 }
    ensures image { IfOk result (λ i. i ≡ image bytes.now) }
    ensures checked { Answers result (first_failed (checks bytes.now)) }
{
    check_front(bytes)?;
    check_layout(bytes)?;
    let found = symbols(alloc, bytes)?;
    check_tables(bytes, found.as_slice())?;
    Ok(image(alloc, bytes, found)?)
}

/// The image whose file these bytes are. A fault is the first failed check, in this order: the length, the
/// header but for the place of the section headers, the program headers, the file's end after the section
/// headers, the section headers, their place after the other parts, the bytes between the parts, the symbol
/// table, the strings, the section names.
pub fn read_elf(alloc: Global, bytes: &[u8]) -> Result<Image, ElfFault>
    requires { length bytes.now < u32.MAX }
    // What is read is the file of the image.
    ensures found { IfOk result (λ i. IsImage i × (bytes.now ≡ elf i)) }
    // The file of an image is read as that image, unless memory runs out.
    ensures only { (i : Parts) → IsImage i → All HasWords i.symbols → bytes.now ≡ elf i → MatchResult result (λ j. j ≡ i) (λ e. e ≡ ElfFault.NoMemory) }
    // Which check failed first.
    ensures checked { Answers result (first_failed (checks bytes.now)) }
{
    read(alloc, bytes)
}
