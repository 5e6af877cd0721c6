ghost use Rattle.std.specs.Prelude.{◌≡◌, ◌+◌, ◌≤◌, ◌<◌, ◌^◌, ◌++◌, List, length, not, count_by, fold, OnOk, IfOk};
ghost use Rattle.elf_object.specs.Image.{string_table, symbol_table_size};
ghost use Rattle.elf_object.specs.File.{padded, placed, loaded_parts, section_parts, sizes_of, first_global, entries_bytes, symbol_table, header, segments, sections, elf};

use crate::elf32::put_fields;
use crate::entries::{entry, zero_entry};
use crate::image::Image;
use crate::layout::{
    SECTION_NAMES, SEGMENTS_AT, Sizes, TEXT_AT, data_section, data_segment, executable,
    null_section, shstrtab_section, strtab_section, symtab_section, text_section, text_segment,
};
use crate::symbol::Symbol;
use oi_base::NoMemory;
use std::alloc::Global;

/// Zero bytes up to a place.
fn pad_to(out: &mut Vec<u8>, place: u64) -> Result<(), NoMemory>
    ensures { OnOk result (out.new.items ≡ padded place out.old.items) }
{
    let place = place as usize;
    if out.len() < place {
        out.resize(place, 0)?;
    }
    Ok(())
}

/// The bytes at their place.
fn put_part(out: &mut Vec<u8>, place: u64, bytes: &[u8]) -> Result<(), NoMemory>
    ensures { OnOk result (out.new.items ≡ padded place out.old.items ++ bytes.now) }
{
    pad_to(out, place)?;
    out.extend_from_slice(bytes)?;
    Ok(())
}

#[tactic(auto, unfolding(crate::specs::File::header))]
fn put_header(out: &mut Vec<u8>, sizes: &Sizes) -> Result<(), NoMemory>
    ensures { OnOk result (out.new.items ≡ out.old.items ++ header sizes.now) }
{
    put_fields(out, &executable(sizes.sections_at()).fields())
}

#[tactic(auto, unfolding(crate::specs::File::segments))]
fn put_segments(out: &mut Vec<u8>, sizes: &Sizes) -> Result<(), NoMemory>
    ensures { OnOk result (out.new.items ≡ out.old.items ++ segments sizes.now) }
{
    put_fields(out, &text_segment(sizes).fields())?;
    put_fields(out, &data_segment(sizes).fields())
}

#[tactic(auto, unfolding(crate::specs::File::sections))]
fn put_sections(out: &mut Vec<u8>, sizes: &Sizes, first_global: u64) -> Result<(), NoMemory>
    ensures { OnOk result (out.new.items ≡ out.old.items ++ sections sizes.now first_global) }
{
    put_fields(out, &null_section().fields())?;
    put_fields(out, &text_section(sizes).fields())?;
    put_fields(out, &data_section(sizes).fields())?;
    put_fields(out, &symtab_section(sizes, first_global).fields())?;
    put_fields(out, &strtab_section(sizes).fields())?;
    put_fields(out, &shstrtab_section(sizes).fields())
}

fn put_entries(out: &mut Vec<u8>, symbols: &[Symbol]) -> Result<(), NoMemory>
    requires { length (string_table symbols.now) < 2 ^ 64 }
    ensures { OnOk result (out.new.items ≡ out.old.items ++ entries_bytes 1 symbols.now) }
{
    let mut name_at: u64 = 1;
    for symbol in symbols {
        put_fields(out, &entry(name_at, symbol).fields())?;
        name_at += symbol.name.len() as u64 + 1;
    }
    Ok(())
}

#[tactic(auto, unfolding(crate::specs::File::symbol_table))]
fn put_symbol_table(out: &mut Vec<u8>, symbols: &[Symbol]) -> Result<(), NoMemory>
    requires { length (string_table symbols.now) < 2 ^ 64 }
    ensures { OnOk result (out.new.items ≡ out.old.items ++ symbol_table symbols.now) }
{
    put_fields(out, &zero_entry().fields())?;
    put_entries(out, symbols)
}

fn put_string_table(out: &mut Vec<u8>, symbols: &[Symbol]) -> Result<(), NoMemory>
    ensures { OnOk result (out.new.items ≡ out.old.items ++ string_table symbols.now) }
{
    out.push(0)?;
    for symbol in symbols {
        out.extend_from_slice(symbol.name.as_slice())?;
        out.push(0)?;
    }
    Ok(())
}

fn string_table_len(symbols: &[Symbol]) -> u32
    requires { length (string_table symbols.now) < 2 ^ 32 }
    ensures { result ≡ length (string_table symbols.now) }
{
    let mut len = 1;
    for symbol in symbols {
        len += symbol.name.len() as u32 + 1;
    }
    len
}

fn first_global(symbols: &[Symbol]) -> u64
    requires { length symbols.now < 2 ^ 32 }
    ensures { result ≡ first_global symbols.now }
{
    symbols.iter().filter(|symbol| !symbol.global).count() as u64 + 1
}

fn sizes_of(image: &Image) -> Sizes
    ensures { result ≡ sizes_of image.now }
{
    let symbols = image.symbols.as_slice();
    Sizes {
        text: image.text.len() as u32,
        data_bytes: image.data_bytes.len() as u32,
        symtab: 16 * (symbols.len() as u32 + 1),
        strtab: string_table_len(symbols),
    }
}

#[tactic(auto, unfolding(crate::specs::File::loaded_parts))]
fn put_loaded_parts(out: &mut Vec<u8>, sizes: &Sizes, image: &Image) -> Result<(), NoMemory>
    ensures { OnOk result (out.new.items ≡ fold placed out.old.items (loaded_parts sizes.now image.now)) }
{
    pad_to(out, 0)?;
    put_header(out, sizes)?;
    pad_to(out, SEGMENTS_AT)?;
    put_segments(out, sizes)?;
    put_part(out, TEXT_AT, image.text.as_slice())?;
    put_part(out, sizes.data_at(), image.data_bytes.as_slice())
}

#[tactic(auto, unfolding(crate::specs::File::section_parts, crate::specs::Layout::section_names))]
fn put_section_parts(out: &mut Vec<u8>, sizes: &Sizes, image: &Image) -> Result<(), NoMemory>
    ensures { OnOk result (out.new.items ≡ fold placed out.old.items (section_parts sizes.now image.now)) }
{
    let symbols = image.symbols.as_slice();
    pad_to(out, sizes.symtab_at())?;
    put_symbol_table(out, symbols)?;
    pad_to(out, sizes.strtab_at())?;
    put_string_table(out, symbols)?;
    put_part(out, sizes.shstrtab_at(), SECTION_NAMES)?;
    pad_to(out, sizes.sections_at())?;
    put_sections(out, sizes, first_global(symbols))
}

/// The file of an image: an ELF32 executable for RISC-V ("Executable and Linking Format", version 1.2). The
/// header and two program headers stand first. The text follows at the first page, the data at the next
/// one, the symbol table at the next multiple of 4, the strings and the section names after it, and the six
/// section headers at the next multiple of 4, at the file's end. Bytes between the parts are zero.
#[tactic(auto, unfolding(crate::specs::File::elf, crate::specs::File::loaded_parts, crate::specs::File::section_parts))]
pub fn write_elf(alloc: Global, image: &Image) -> Result<Vec<u8>, NoMemory>
    ensures { IfOk result (λ bytes. bytes.items ≡ elf image.now) }
{
    let sizes = sizes_of(image);
    let mut out = Vec::new(alloc);
    put_loaded_parts(&mut out, &sizes, image)?;
    put_section_parts(&mut out, &sizes, image)?;
    Ok(out)
}
