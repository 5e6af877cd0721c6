ghost use Rattle.std.specs.Prelude.{◌≡◌, ◌<◌, IsTrue, All};
ghost use Rattle.ir_core.specs.Formed.{IsAlign};
ghost use Rattle.frame_layout.specs.Parts.{IsNeed, IsPart};

use crate::faults::FrameFault;
use crate::frame::Frame;
use crate::laying::framed;
use crate::parts::{Need, Part, parts};
use ir_core::{
    FlatBlock, FlatBody, FlatCode, FlatEnd, FlatInstr, FlatOp, Phi, Phis, Scalar, Short,
};
use oi_base::{Items, NoMemory, RegId, Width};
use std::alloc::{AllocError, Global};
use std::process::Abort;
use std::test::Fail;

// Expected values are those of a plain model. A line has the number of parameters, the number of registers and the
// blocks with `/` between them; in a block `p` is a phi, `b` a copy, `g` a get, `s` a store and `a` an alloca with its
// size and alignment, each with the register that it writes. Then stand the frame's bytes and each register's home:
// `s` a slot, `p` a slot with its shadow after it, `m` memory.
const FRAMES: &str = "0 0 -|16
1 1 -|16 s4
3 3 -|16 s4 s8 s12
4 4 -|32 s4 s8 s12 s16
8 8 -|48 s4 s8 s12 s16 s20 s24 s28 s32
2 3 -|16 s4 s8 -
0 1 b0|16 s4
0 3 b2 b0|16 s8 - s4
2 4 b3 s g|16 s4 s8 - s12
0 2 g1|16 - s4
0 1 a0:4:4|16 m4
0 1 a0:0:16|16 m16
0 1 a0:1:1|16 m4
0 2 a0:1:1 a1:4:4|16 m4 m8
0 2 a0:5:4 a1:16:16|32 m4 m16
1 4 a1:3:1 b2 a3:8:8|32 s4 m12 s8 m16
1 6 a1:4:4 g2 / p3 b4 a5:1:16 / s|48 s4 m24 s8 p12 s20 m32
0 4 - / p0 p1 b2 / p3|32 p4 p12 s20 p24
2 5 b2 / p4 b3|32 s4 s8 s12 s24 p16
0 3 a2:2:2 a1:2:2 a0:2:2|16 m8 m6 m4
0 3 a0:65500:1 a1:20:1 a2:12:1|65536 m4 m65504 m65524
0 3 a0:65500:1 a1:20:1 a2:13:1|too large 65552
0 1 a0:65528:8|65536 m8
0 1 a0:65529:8|too large 65552
0 1 a0:65520:16|65536 m16
0 1 a0:65521:16|too large 65552
0 1 a0:4294967295:16|too large 4294967312
0 2 a0:4294967295:16 a1:4294967295:16|too large 8589934608
0 3 b0 a1:65520:1 a2:8:8|65536 s4 m8 m65528
1 4 - / p3 a1:0:16 / p2|32 s4 m32 p16 p8
0 2 - / p0|16 p4 -
3 4 a3:7:1|32 s4 s8 s12 m16
0 9 a6:100:2 g a5:12:1 a8:8:16 a0:16:8 a7:2:2 s a1:5:8 g3 s / p4|176 m136 m160 - s4 p8 m116 m16 m152 m128
8 10 a8:5:16 b9 g|64 s4 s8 s12 s16 s20 s24 s28 s32 m48 s36
1 9 b7 a8:8:1 a4:4000:2 / p6 p1 s b2|4048 s4 p20 s28 - m40 - p12 s8 m32
2 8 - / p6 p4 a2:4:4 s a3:16:16 / p5 g7|64 s4 s8 m40 m48 p20 p28 p12 s36
8 9 a8:100:16|160 s4 s8 s12 s16 s20 s24 s28 s32 m48
2 9 g3 / p4 / p6 a8:5:16 g a7:2:4 a5:8:1 s g2|80 s4 s8 s32 s12 p16 m58 p24 m56 m48
2 7 b4 b5 a6:12:4 g b3 a2:1:4|48 s4 s8 m36 s20 s12 s16 m24
0 6 a5:3:2 b0 a3:5:1 b2 / p4 p1|48 s4 p20 s8 m31 p12 m28
8 14 a11:5:2 g13 / p12 p9 b8 s b10|80 s4 s8 s12 s16 s20 s24 s28 s32 s56 p48 s60 m64 p40 s36
2 5 - / p2 b4 b3 g|32 s4 s8 p12 s24 s20
0 3 a1:8:2 a2:8:4 a0:0:1|32 m20 m4 m12
8 10 a9:3:2 g a8:3:16|64 s4 s8 s12 s16 s20 s24 s28 s32 m48 m36
3 10 b7 / p6 a8:8:2 b5 g a3:4000:1 a4:12:16 b9 g|4064 s4 s8 s12 m44 m4048 s28 p20 s16 m36 s32
0 4 a1:12:1 a0:12:16 b2|48 m32 m8 s4 -
3 11 a9:7:8 b3 a10:4:1 / p4 b5 g g7 g8 a6:100:2|160 s4 s8 s12 s16 p20 s28 m52 s32 s36 m40 m47
2 11 - / p10 a9:0:8 a2:12:1 g g6 s a4:2:4 b3 b5 a7:12:16 b8 g|80 s4 s8 m40 s24 m52 s28 s20 m64 s32 m40 p12
8 11 a10:0:1 / p8 / p9|64 s4 s8 s12 s16 s20 s24 s28 s32 p36 p44 m52
2 3 a2:12:8|32 s4 s8 m16
1 4 a3:2:2 a1:12:2|32 s4 m10 - m8";

/// A number's text, or nothing where there is none.
fn register(text: &str) -> Option<RegId> {
    Some(RegId(text.parse::<u32>().ok()?))
}

fn alloca(text: &str) -> Option<FlatInstr> {
    let (reg, rest) = text.split_once(':')?;
    let (size, align) = rest.split_once(':')?;
    Some(FlatInstr::Alloca(
        register(reg)?,
        size.parse::<u32>().ok()?,
        align.parse::<u32>().ok()?,
    ))
}

fn instr(text: &str) -> Option<FlatInstr> {
    if let Some(rest) = text.strip_prefix("a") {
        return alloca(rest);
    }
    if let Some(rest) = text.strip_prefix("b") {
        return Some(FlatInstr::Copy(register(rest)?, FlatOp::Word(1)));
    }
    if let Some(rest) = text.strip_prefix("g") {
        return Some(FlatInstr::Get(register(rest)));
    }
    if text == "s" {
        let scalar = Scalar::Word(Width::W8);
        return Some(FlatInstr::Store(scalar, 1, FlatOp::Word(1), FlatOp::Null));
    }
    None
}

fn block(alloc: Global, text: &str) -> Result<FlatBlock, NoMemory> {
    let mut phis: Phis = Items::new(alloc);
    let mut code: FlatCode = Items::new(alloc);
    for word in text.split(' ') {
        if let Some(rest) = word.strip_prefix("p") {
            if let Some(reg) = register(rest) {
                let entries = Short::new(alloc);
                phis.push(Phi { reg, entries })?;
            }
        } else if let Some(instr) = instr(word) {
            code.push(instr)?;
        }
    }
    let end = FlatEnd::Unreachable;
    Ok(FlatBlock { phis, code, end })
}

fn body(alloc: Global, params: u32, regs: u32, text: &str) -> Result<FlatBody, NoMemory> {
    let mut blocks = Items::new(alloc);
    for part in text.split('/') {
        blocks.push(block(alloc, part)?)?;
    }
    Ok(FlatBody {
        params,
        regs,
        blocks,
    })
}

fn is_align(align: u32) -> bool
    ensures { IsTrue result → IsAlign align }
{
    [1, 2, 4, 8, 16].contains(&align)
}

fn is_need(need: Need) -> bool
    ensures { IsTrue result → IsNeed need }
{
    match need {
        Need::Slot | Need::SlotAndShadow => true,
        Need::Memory(_, align) => is_align(align),
    }
}

fn is_part(regs: u32, part: Part) -> bool
    ensures { IsTrue result → IsPart regs part }
{
    part.reg.0 < regs && is_need(part.need)
}

fn are_parts(regs: u32, parts: &[Part]) -> bool
    ensures { IsTrue result → All (IsPart regs) parts.now }
{
    for part in parts {
        if !is_part(regs, *part) {
            return false;
        }
    }
    true
}

/// A register's home.
fn home(alloc: Global, frame: &Frame, r: RegId) -> Result<String, AllocError> {
    if let Some(shadow) = frame.shadow(r) {
        return match frame.slot(r) {
            Some(slot) if slot.checked_add(4) == Some(shadow) => format!(in alloc; " p{slot}"),
            _ => format!(in alloc; " ?"),
        };
    }
    match (frame.slot(r), frame.place(r)) {
        (Some(slot), None) => format!(in alloc; " s{slot}"),
        (None, Some(place)) => format!(in alloc; " m{place}"),
        (None, None) => format!(in alloc; " -"),
        _ => format!(in alloc; " ?"),
    }
}

fn homes(alloc: Global, frame: &Frame, regs: u32) -> Result<String, AllocError> {
    let mut text = format!(in alloc; "{}", frame.bytes())?;
    for r in 0..regs {
        text.push_str(home(alloc, frame, RegId(r))?.as_str())?;
    }
    Ok(text)
}

#[test]
fn frames(rt: HostRuntime) -> Result<(), Fail> {
    let alloc = rt.alloc();
    for line in FRAMES.lines() {
        let (text, expected) = line.split_once('|').ok_or("no frame")?;
        let (params, rest) = text.split_once(' ').ok_or("no registers")?;
        let (regs, blocks) = rest.split_once(' ').ok_or("no blocks")?;
        let params = params.parse::<u32>().ok().ok_or("no number")?;
        let regs = regs.parse::<u32>().ok().ok_or("no number")?;
        let body = body(alloc, params, regs, blocks)?;
        let parts = parts(alloc, &body)?;
        assert!(rt; parts.len() <= regs as usize);
        assert!(rt; are_parts(regs, &parts));
        let said = match framed(alloc, regs, &parts) {
            Ok(frame) => homes(alloc, &frame, regs)?,
            Err(FrameFault::FrameTooLarge(n)) => format!(in alloc; "too large {n}")?,
            Err(FrameFault::NoMemory) => return Err(Fail::from(NoMemory)),
        };
        assert_eq!(rt; said.as_str(), expected, "{line}");
    }
    Ok(())
}
