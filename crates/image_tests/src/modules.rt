ghost use Rattle.std.specs.Prelude.{IfOk};
ghost use Rattle.ir_reader.specs.Refusals.{ReadsWithin};

use ir_core::{Module, Verified};
use ir_reader::{ReadFault, read_module};
use ir_verifier::verify;
use std::alloc::Global;
use std::test::Fail;

/// The functions of each module: an internal one, and `main`. Each returns 0.
const FUNCTIONS: &str = "define internal i32 @f() { ret i32 0 } define i32 @main() { ret i32 0 } ";

/// The module with these functions and with the globals of a text.
pub fn module(alloc: Global, globals: &str) -> Result<Verified, Fail> {
    let mut text = String::from_str(alloc, FUNCTIONS)?;
    text.push_str(globals)?;
    match read(alloc, text.as_bytes()) {
        Ok(m) => match verify(alloc, m) {
            Ok(v) => Ok(v),
            Err(_) => Err("not valid")?,
        },
        Err(_) => Err("not read")?,
    }
}

fn read(alloc: Global, text: &[u8]) -> Result<Module, ReadFault>
    ensures { IfOk result (ReadsWithin text.now) }
{
    if text.len() >= 4_294_967_295 {
        return Err(ReadFault::NoMemory);
    }
    read_module(alloc, text)
}
