use crate::description::describe;
use crate::facts::{FuncFacts, candidates};
use ir_core::{Block, End, Func, Instr, IrType, LocalId, Op, Short, SymId};
use oi_base::{Items, NoMemory, Place, SiteId};
use std::alloc::{AllocError, Global};
use std::process::Abort;
use std::test::Fail;

// Expected values are those of a plain model. A line has functions, in order, whether `noinline` has no effect, the
// candidates, and which functions are reached. A function begins with `+` where it is external, `-` where it is
// internal, and `#` or `!` where it is so and `noinline`; then stand the functions that it calls, `p` for `putchar`.
const GRAPHS: &str = "+1 -||1|11
+1 -|free|1|11
+11 -p||1 2|11
+11 -p|free|1 2|11
+1 -p||1|11
+1 -p|free|1|11
+1 +p||1|11
+1 +p|free|1|11
+12 -1 -3 -2||1 2|1111
+12 -1 -3 -2|free|1 2|1111
+ -2 -|||100
+ -2 -|free||100
+112 -p -33 -p||1 2 3 4 5|1111
+112 -p -33 -p|free|1 2 3 4 5|1111
+11 -22 -33 -44 -p||1 2 3 4 5 6 7 8|11111
+11 -22 -33 -44 -p|free|1 2 3 4 5 6 7 8|11111
+1 -1||1|11
+1 -1|free|1|11
!p #0|||11
!p #0|free|1|11
-00 ! -010 +30||7|1001
-00 ! -010 +30|free|7|1001
+102 +2 !||1|111
+102 +2 !|free|1 3 4|111
!01 +123 -042 !0 !512 +504|||111111
!01 +123 -042 !0 !512 +504|free||111111
!1 !11|||00
!1 !11|free||00
-2 -5 - !4 -5 -4|||000000
-2 -5 - !4 -5 -4|free||000000
+101 -10|||11
+101 -10|free||11
+466 -5 -346 - +3 + -563||1 2 3 8 9 11|1001111
+466 -5 -346 - +3 + -563|free|1 2 3 8 9 11|1001111
-0 -1 ! -|||0000
-0 -1 ! -|free||0000
-2 -11 +1||4|011
-2 -11 +1|free|4|011
!1 -232 -1 +1 -0|||01110
!1 -232 -1 +1 -0|free||01110
!2 - -42 !214 !|||00000
!2 - -42 !214 !|free||00000
!33 - -01 +3 -|||00010
!33 - -01 +3 -|free||00010
! + !0 -001|||0100
! + !0 -001|free||0100
-5 -4 -00 -33 - -|||000000
-5 -4 -00 -33 - -|free||000000
-3 -014 -5 ! !5 +4 -2|||0000110
-3 -014 -5 ! !5 +4 -2|free||0000110
-533 -33 !50 +7 -5 -5 +1 -35||4 5 11 13|01010111
-533 -33 !50 +7 -5 -5 +1 -35|free|4 5 11 13|01010111
-201 - +20||3|111
-201 - +20|free|3|111
-20 -30 -1 +4 -4||6|00011
-20 -30 -1 +4 -4|free|6|00011
!52 !200 +263 - -4 !5 -620 -62||8|10110110
!52 !200 +263 - -4 !5 -620 -62|free|1 8|10110110
-403 -011 -45 +025 !430 !|||101111
-403 -011 -45 +025 !430 !|free|8 11|101111
-0 +120 +12||4|111
-0 +120 +12|free|4|111
!152 -434 -241 -3 +32 +3||5 11 13|011111
!152 -434 -241 -3 +32 +3|free|5 11 13|011111
-0 -0|||00
-0 -0|free||00
-10 -11 -32 -2|||0000
-10 -11 -32 -2|free||0000
+0 -330 -2 !|||1000
+0 -330 -2 !|free||1000
- +1|||01
- +1|free||01
-0 -1|||00
-0 -1|free||00
!212 - -|||000
!212 - -|free||000";

const HERE: Place = Place { line: 1, column: 1 };

fn call(alloc: Global, callee: u8) -> Instr {
    let name = if callee == b'p' {
        99
    } else {
        (callee & 15) as u32
    };
    Instr {
        place: HERE,
        result: None,
        op: Op::Call(IrType::Void, SymId(name), Short::new(alloc)),
    }
}

/// A function of one block.
fn func(alloc: Global, name: u32, text: &str) -> Result<Func, NoMemory> {
    let mut code = Items::new(alloc);
    let mut sign = b' ';
    for byte in text.as_bytes() {
        match *byte {
            b'+' | b'-' | b'#' | b'!' => sign = *byte,
            callee => code.push(call(alloc, callee))?,
        }
    }
    let mut blocks = Items::new(alloc);
    blocks.push(Block {
        place: HERE,
        label: LocalId(0),
        code,
        end: End::Ret(None),
        end_place: HERE,
    })?;
    Ok(Func {
        place: HERE,
        name: SymId(name),
        internal: sign == b'-' || sign == b'!',
        noinline: sign == b'#' || sign == b'!',
        result: IrType::Void,
        params: Items::new(alloc),
        locals: Items::new(alloc),
        blocks,
    })
}

fn functions(alloc: Global, text: &str) -> Result<Vec<Func>, NoMemory> {
    let mut funcs = Vec::new(alloc);
    let mut name = 0;
    for word in text.split(' ') {
        funcs.push(func(alloc, name, word)?)?;
        name = name.saturating_add(1);
    }
    Ok(funcs)
}

/// The candidates' numbers, with blanks between.
fn numbers(alloc: Global, sites: &[SiteId]) -> Result<String, AllocError> {
    let mut text = String::new(alloc);
    for site in sites {
        if !text.is_empty() {
            text.push(' ')?;
        }
        text.push_str(format!(in alloc; "{}", site.0)?.as_str())?;
    }
    Ok(text)
}

fn reached(alloc: Global, funcs: &[FuncFacts]) -> Result<String, AllocError> {
    let mut text = String::new(alloc);
    for func in funcs {
        text.push(if func.reached { '1' } else { '0' })?;
    }
    Ok(text)
}

#[test]
fn candidates_and_reached_functions(rt: HostRuntime) -> Result<(), Fail> {
    let alloc = rt.alloc();
    for line in GRAPHS.lines() {
        let (text, rest) = line.split_once('|').ok_or("no functions")?;
        let (free, rest) = rest.split_once('|').ok_or("no word")?;
        let (sites, flags) = rest.split_once('|').ok_or("no candidates")?;
        let funcs = functions(alloc, text)?;
        assert!(rt; funcs.len() <= 4096);
        let said = describe(alloc, funcs.as_slice(), free == "free")?;
        assert!(rt; said.sites.len() <= 4096);
        let ids = candidates(alloc, said.sites.as_slice())?;
        assert_eq!(rt; numbers(alloc, ids.as_slice())?.as_str(), sites, "{line}");
        assert_eq!(rt;
            reached(alloc, said.funcs.as_slice())?.as_str(),
            flags,
            "{line}"
        );
    }
    Ok(())
}
