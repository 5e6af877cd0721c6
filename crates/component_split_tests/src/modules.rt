ghost use Rattle.std.specs.Prelude.{IfOk};
ghost use Rattle.ir_reader.specs.Refusals.{ReadsWithin};

use call_graph::{CallGraph, graph};
use ir_core::Module;
use ir_reader::{ReadFault, read_module};
use ir_verifier::verify;
use std::alloc::Global;
use std::test::Fail;

/// The call graph of a module with the functions of a row, with blanks between them: `+` for an external function and `-` for an
/// internal one, `#` and `!` where it is so and `noinline`, and after commas the positions of the functions that it calls. The first
/// function is `main`.
pub fn graph_of(alloc: Global, row: &str, free: bool) -> Result<CallGraph, Fail> {
    let text = text_of(alloc, row)?;
    match read(alloc, text.as_bytes()) {
        Ok(m) => match verify(alloc, m) {
            Ok(v) => Ok(graph(alloc, &v, free)?),
            Err(_) => Err("not valid")?,
        },
        Err(_) => Err("not read")?,
    }
}

fn read(alloc: Global, text: &[u8]) -> Result<Module, ReadFault>
    ensures { IfOk result (ReadsWithin text.now) }
{
    if text.len() >= 4_294_967_295 {
        return Err(ReadFault::NoMemory);
    }
    read_module(alloc, text)
}

fn text_of(alloc: Global, row: &str) -> Result<String, Fail> {
    let mut text = String::new(alloc);
    for (at, word) in row.split(' ').enumerate() {
        push_function(&mut text, at, word)?;
    }
    Ok(text)
}

fn push_function(text: &mut String, at: usize, word: &str) -> Result<(), Fail> {
    let mut parts = word.split(',');
    push_head(text, at, parts.next().ok_or("no sign")?)?;
    for callee in parts {
        writeln!(text, "  call void @f{callee}()")?;
    }
    text.push_str(if at == 0 {
        "  ret i32 0\n}\n"
    } else {
        "  ret void\n}\n"
    })?;
    Ok(())
}

fn push_head(text: &mut String, at: usize, sign: &str) -> Result<(), Fail> {
    text.push_str("define ")?;
    if sign == "-" || sign == "!" {
        text.push_str("internal ")?;
    }
    if at == 0 {
        text.push_str("i32 @main()")?;
    } else {
        write!(text, "void @f{at}()")?;
    }
    if sign == "#" || sign == "!" {
        text.push_str(" noinline")?;
    }
    text.push_str(" {\n")?;
    Ok(())
}
