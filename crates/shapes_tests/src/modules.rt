ghost use Rattle.std.specs.Prelude.{IfOk};
ghost use Rattle.ir_reader.specs.Refusals.{ReadsWithin};

use ir_core::{Module, Verified};
use ir_reader::{ReadFault, read_module};
use ir_verifier::verify;
use std::alloc::Global;
use std::test::Fail;

/// `main` calls `f1`, `f2` and `f1`, and these call `f3`; so the sites are 1 to 3 in `main`, 4 in `f1` and 5 in `f2`.
const MODULE: &str = "define i32 @main() {
  call void @f1()
  call void @f2()
  call void @f1()
  ret i32 0
}
define internal void @f1() {
  call void @f3()
  ret void
}
define internal void @f2() {
  call void @f3()
  ret void
}
define internal void @f3() {
  ret void
}
";

/// The module.
pub fn module(alloc: Global) -> Result<Verified, Fail> {
    match read(alloc, MODULE.as_bytes()) {
        Ok(m) => match verify(alloc, m) {
            Ok(v) => Ok(v),
            Err(_) => Err("not valid")?,
        },
        Err(_) => Err("not read")?,
    }
}

fn read(alloc: Global, text: &[u8]) -> Result<Module, ReadFault>
    ensures { IfOk result (ReadsWithin text.now) }
{
    if text.len() >= 4_294_967_295 {
        return Err(ReadFault::NoMemory);
    }
    read_module(alloc, text)
}
