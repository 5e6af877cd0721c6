use elf_object::{ElfFault, ElfField, Image, SymKind, Symbol, read_elf, write_elf};
use oi_base::{Items, NoMemory, Text};
use std::alloc::Global;
use std::test::*;

/// A program whose `main` returns 7, after four words that call it.
const TEXT: [u8; 40] = [
    0x97, 0x00, 0x00, 0x00, 0xe7, 0x80, 0x00, 0x01, 0x93, 0x08, 0x30, 0x00, 0x73, 0x00, 0x00, 0x00,
    0x13, 0x01, 0x01, 0xff, 0x23, 0x20, 0x11, 0x00, 0x13, 0x05, 0x70, 0x00, 0x83, 0x20, 0x01, 0x00,
    0x13, 0x01, 0x01, 0x01, 0x67, 0x80, 0x00, 0x00,
];

/// Bytes that are put into a file at a place, and the fault that this is: its field, its offset and what is found.
type Change = (usize, &'static [u8], ElfField, u32, u32);

/// Changes of the file of `seven`, of 8,512 bytes: the section headers stand at 8,272.
const SEVEN: [Change; 38] = [
    (0, &[0], ElfField::Header, 0, 0),
    (7, &[1], ElfField::Header, 7, 1),
    (18, &[62, 0], ElfField::Header, 18, 62),
    (50, &[4, 0], ElfField::Header, 50, 4),
    (52, &[2], ElfField::Program, 52, 2),
    (68, &[41], ElfField::Program, 68, 41),
    (68, &[12], ElfField::Program, 68, 12),
    (68, &[4, 0, 0x40, 0], ElfField::Program, 68, 4_194_308),
    (72, &[44], ElfField::Program, 72, 44),
    (88, &[0, 0x10], ElfField::Program, 88, 4096),
    (100, &[1, 0, 0x10, 0], ElfField::Program, 100, 1_048_577),
    (100, &[16], ElfField::Program, 104, 0),
    (32, &[0x54], ElfField::Shoff, 32, 8276),
    (8512, &[0], ElfField::Shoff, 32, 8272),
    (8272, &[1], ElfField::Section, 8272, 1),
    (8328, &[4], ElfField::Section, 8328, 4100),
    (8412, &[40], ElfField::Section, 8412, 40),
    (8412, &[0], ElfField::Section, 8412, 0),
    // A symbol table that ends beyond 32 bits: the place of the strings is wrong.
    (
        8412,
        &[0xf0, 0xff, 0xff, 0xff],
        ElfField::Section,
        8448,
        8224,
    ),
    (8420, &[0], ElfField::Section, 8420, 0),
    (8420, &[3], ElfField::Section, 8420, 3),
    (8452, &[0], ElfField::Section, 8452, 0),
    (
        8452,
        &[0, 0, 0, 0x40],
        ElfField::Section,
        8452,
        1_073_741_824,
    ),
    (116, &[2], ElfField::Gap, 116, 2),
    (4000, &[1], ElfField::Gap, 4000, 1),
    (8271, &[1], ElfField::Gap, 8271, 1),
    (8192, &[5], ElfField::Symbol, 8192, 5),
    (8208, &[0xff, 0x0f], ElfField::Symbol, 8208, 4095),
    (8220, &[2], ElfField::Symbol, 8220, 2),
    (8220, &[17], ElfField::Symbol, 8222, 1),
    (8221, &[1], ElfField::Symbol, 8221, 1),
    (8224, &[1], ElfField::Strings, 8224, 1),
    // An empty name, a name without its zero byte, and a byte after the last name's.
    (8225, &[0], ElfField::Strings, 8225, 0),
    (8229, b"x", ElfField::Strings, 8229, 120),
    (8228, &[0], ElfField::Strings, 8229, 0),
    (8230, b"x", ElfField::Names, 8230, 120),
    (8268, b"x", ElfField::Names, 8268, 120),
    (8492, &[38], ElfField::Section, 8492, 38),
];

/// Changes of the file of `two`: the symbol table stands at 8,200, the strings stand at 8,248.
const TWO: [Change; 8] = [
    (8197, &[1], ElfField::Gap, 8197, 1),
    // Symbols in the wrong order: the first one global, the second one local.
    (8228, &[17], ElfField::Symbol, 8228, 17),
    (8244, &[2], ElfField::Symbol, 8244, 2),
    (8216, &[2], ElfField::Symbol, 8216, 2),
    // The place of the second name, as the first name's zero byte says.
    (8232, &[4], ElfField::Symbol, 8232, 4),
    (8250, b"x", ElfField::Symbol, 8232, 3),
    (8249, &[0], ElfField::Symbol, 8232, 3),
    (8255, b"y", ElfField::Strings, 8255, 121),
];

fn seven_changes() -> &'static [Change] {
    &SEVEN
}

fn two_changes() -> &'static [Change] {
    &TWO
}

fn seven(alloc: Global) -> Result<Image, NoMemory> {
    let main = Symbol {
        name: Text::from_slice(alloc, b"main")?,
        value: 0x1_0010,
        size: 24,
        kind: SymKind::Func,
        global: true,
    };
    let mut symbols = Items::new(alloc);
    symbols.push(main)?;
    Ok(Image {
        text: Text::from_slice(alloc, &TEXT)?,
        data_bytes: Text::new(alloc),
        symbols,
    })
}

/// The first of the symbols is local.
fn two(alloc: Global) -> Result<Image, NoMemory> {
    let g = Symbol {
        name: Text::from_slice(alloc, b"g")?,
        value: 0x1000_0000,
        size: 5,
        kind: SymKind::Object,
        global: false,
    };
    let main = Symbol {
        name: Text::from_slice(alloc, b"main")?,
        value: 0x1_0010,
        size: 24,
        kind: SymKind::Func,
        global: true,
    };
    let mut symbols = Items::new(alloc);
    symbols.push(g)?;
    symbols.push(main)?;
    Ok(Image {
        text: Text::from_slice(alloc, &TEXT)?,
        data_bytes: Text::from_slice(alloc, &[5, 0, 0, 0, 6])?,
        symbols,
    })
}

/// The file with these bytes from a place on, which may go beyond its end.
fn changed(alloc: Global, file: &[u8], at: usize, bytes: &[u8]) -> Result<Vec<u8>, NoMemory> {
    let mut out = Vec::new(alloc);
    for (place, byte) in file.iter().enumerate() {
        if place < at {
            out.push(*byte)?;
        }
    }
    out.extend_from_slice(bytes)?;
    for (place, byte) in file.iter().enumerate() {
        if place >= at && place - at >= bytes.len() {
            out.push(*byte)?;
        }
    }
    Ok(out)
}

/// What reading the bytes answers.
fn read(alloc: Global, bytes: &[u8]) -> Option<Result<Image, ElfFault>> {
    if bytes.len() >= 0xffff_ffff {
        return None;
    }
    Some(read_elf(alloc, bytes))
}

fn refused(alloc: Global, bytes: &[u8]) -> Option<ElfFault> {
    match read(alloc, bytes)? {
        Ok(_) => None,
        Err(fault) => Some(fault),
    }
}

/// The first change whose answer is another one, or all of them.
fn first_unlike(alloc: Global, file: &[u8], changes: &[Change]) -> Result<usize, NoMemory> {
    for (number, (at, bytes, field, offset, found)) in changes.iter().enumerate() {
        let bytes = changed(alloc, file, *at, bytes)?;
        let fault = ElfFault::Field {
            field: *field,
            offset: *offset,
            found: *found,
        };
        if refused(alloc, &bytes) != Some(fault) {
            return Ok(number);
        }
    }
    Ok(changes.len())
}

/// Whether two lists of symbols are the same.
fn same_symbols(left: &[Symbol], right: &[Symbol]) -> bool {
    if left.len() != right.len() {
        return false;
    }
    for (l, r) in left.iter().zip(right) {
        if l.name.as_slice() != r.name.as_slice() || l.value != r.value || l.size != r.size {
            return false;
        }
        if l.kind != r.kind || l.global != r.global {
            return false;
        }
    }
    true
}

fn same_images(left: &Image, right: &Image) -> bool {
    left.text.as_slice() == right.text.as_slice()
        && left.data_bytes.as_slice() == right.data_bytes.as_slice()
        && same_symbols(left.symbols.as_slice(), right.symbols.as_slice())
}

#[test]
fn written_and_read_again(rt: HostRuntime) -> Result<(), Fail> {
    let image = two(rt.alloc()).ok().ok_or("memory for an image")?;
    let file = write_elf(rt.alloc(), &image)
        .ok()
        .ok_or("memory for a file")?;
    assert_eq!(rt; file.len(), 8536);
    let again = read(rt.alloc(), &file)
        .ok_or("a short file")?
        .ok()
        .ok_or("the file of an image")?;
    assert!(rt; same_images(&again, &image));
    let unlike = first_unlike(rt.alloc(), &file, two_changes()).ok();
    assert_eq!(rt; unlike, Some(8));
    Ok(())
}

#[test]
fn changed_files(rt: HostRuntime) -> Result<(), Fail> {
    let image = seven(rt.alloc()).ok().ok_or("memory for an image")?;
    let file = write_elf(rt.alloc(), &image)
        .ok()
        .ok_or("memory for a file")?;
    assert_eq!(rt; file.len(), 8512);
    assert!(rt; refused(rt.alloc(), &file).is_none());
    let unlike = first_unlike(rt.alloc(), &file, seven_changes()).ok();
    assert_eq!(rt; unlike, Some(38));
    for len in [0, 100, 115] {
        let front = file.get(..len).ok_or("a long file")?;
        let fault = ElfFault::Field {
            field: ElfField::Length,
            offset: 0,
            found: len as u32,
        };
        assert_eq!(rt; refused(rt.alloc(), front), Some(fault));
    }
    Ok(())
}
