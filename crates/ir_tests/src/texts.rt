ghost use Rattle.std.specs.Prelude.{IfOk};
ghost use Rattle.ir_reader.specs.Refusals.{ReadsWithin};

use ir_core::Module;
use ir_reader::{ReadFault, read_module};
use std::alloc::{AllocError, Global};

/// The text of a row, where `~` stands for a line's end.
pub fn lines_of(alloc: Global, row: &str) -> Result<Vec<u8>, AllocError> {
    let mut text = Vec::new(alloc);
    for byte in row.as_bytes() {
        text.push(if *byte == b'~' { b'\n' } else { *byte })?;
    }
    Ok(text)
}

/// The module of a text, which is not too long for the reader.
pub fn read(alloc: Global, text: &[u8]) -> Result<Module, ReadFault>
    ensures { IfOk result (ReadsWithin text.now) }
{
    if text.len() >= 4_294_967_295 {
        return Err(ReadFault::NoMemory);
    }
    read_module(alloc, text)
}

/// A text that begins so, has a part many times and ends so.
pub fn repeated(
    alloc: Global,
    first: &str,
    part: &str,
    times: u32,
    last: &str,
) -> Result<String, AllocError> {
    let mut text = String::new(alloc);
    text.push_str(first)?;
    for _ in 0..times {
        text.push_str(part)?;
    }
    text.push_str(last)?;
    Ok(text)
}
