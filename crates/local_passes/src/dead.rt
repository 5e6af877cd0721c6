ghost use Rattle.std.specs.Prelude.{◌≡◌, IfOk, false, not, map};
ghost use Rattle.std.specs.List.{filter, filter_map, list_any};
ghost use Rattle.ir_core.specs.WellFormed.{IsWellFormed};
ghost use Rattle.flow_fold.specs.Walks.{marked_in};
ghost use Rattle.local_passes.specs.DeadTests.{loses, block_loses};
ghost use Rattle.local_passes.specs.DropDead.{is_needed, result_kept, instr_kept, block_kept, only_registers, dead_dropped};

use crate::acts::mark_acts;
use crate::needs::Needs;
use crate::use_table::UseTable;
use const_fold::{Passed, reversed};
use ir_core::{FlatBlock, FlatBlocks, FlatBody, FlatCode, FlatInstr, Phi, Phis};
use oi_base::{Items, NoMemory, RegId};
use std::alloc::{AllocError, Global};

/// Of each register whether it is needed.
fn needed(alloc: Global, body: &FlatBody) -> Result<Items<bool>, AllocError>
    requires formed { IsWellFormed body.now }
    ensures { IfOk result (λ marks. marked_in marks ≡ is_needed body.now) }
{
    let table = UseTable::of_body(alloc, body)?;
    let mut needs = Needs::new(alloc, body.regs as usize)?;
    mark_acts(&mut needs, body.blocks.as_slice())?;
    while let Some(r) = needs.take() {
        needs.mark_all(table.of(r))?;
    }
    Ok(needs.into_marks())
}

fn is_kept(marks: &[bool], r: RegId) -> bool
    ensures { result ≡ marked_in marks.now r.0 }
{
    match marks.get(r.0 as usize) {
        Some(mark) => *mark,
        None => false,
    }
}

/// A result, if its register is kept.
fn result_kept(marks: &[bool], result_reg: Option<RegId>) -> Option<RegId>
    ensures { result ≡ result_kept (marked_in marks.now) result_reg }
{
    match result_reg {
        Some(d) if is_kept(marks, d) => Some(d),
        _ => None,
    }
}

/// An instruction that is kept, maybe without its result.
fn instr_kept(marks: &[bool], i: FlatInstr) -> Option<FlatInstr>
    ensures { result ≡ instr_kept (marked_in marks.now) i }
{
    match i {
        FlatInstr::Call(d, f, args) => Some(FlatInstr::Call(result_kept(marks, d), f, args)),
        FlatInstr::Put(d, a) => Some(FlatInstr::Put(result_kept(marks, d), a)),
        FlatInstr::Get(d) => Some(FlatInstr::Get(result_kept(marks, d))),
        i => match i.result() {
            Some(d) => { if is_kept(marks, d) { Some(i) } else { None } }
            None => Some(i),
        },
    }
}

fn phis_kept(alloc: Global, marks: &[bool], phis: Phis) -> Result<Phis, AllocError>
    ensures { IfOk result (λ new. new ≡ filter (λ f. marked_in marks.now f.reg.0) phis) }
{
    let mut left = reversed(alloc, phis)?;
    let mut new = Phis::new(alloc);
    while let Some(phi) = left.pop() {
        if is_kept(marks, phi.reg) {
            new.push(phi)?;
        }
    }
    Ok(new)
}

fn code_kept(alloc: Global, marks: &[bool], code: FlatCode) -> Result<FlatCode, AllocError>
    ensures { IfOk result (λ new. new ≡ filter_map (instr_kept (marked_in marks.now)) code) }
{
    let mut left = reversed(alloc, code)?;
    let mut new = FlatCode::new(alloc);
    while let Some(instr) = left.pop() {
        if let Some(kept) = instr_kept(marks, instr) {
            new.push(kept)?;
        }
    }
    Ok(new)
}

fn block_kept(alloc: Global, marks: &[bool], block: FlatBlock) -> Result<FlatBlock, AllocError>
    ensures { IfOk result (λ new. new ≡ block_kept (marked_in marks.now) block) }
{
    let FlatBlock { phis, code, end } = block;
    let phis = phis_kept(alloc, marks, phis)?;
    let code = code_kept(alloc, marks, code)?;
    Ok(FlatBlock { phis, code, end })
}

fn blocks_kept(alloc: Global, marks: &[bool], blocks: FlatBlocks) -> Result<FlatBlocks, AllocError>
    ensures { IfOk result (λ new. new ≡ map (block_kept (marked_in marks.now)) blocks) }
{
    let mut left = reversed(alloc, blocks)?;
    let mut new = FlatBlocks::new(alloc);
    while let Some(block) = left.pop() {
        new.push(block_kept(alloc, marks, block)?)?;
    }
    Ok(new)
}

/// Whether some phi gives a register that is not kept.
fn phis_lose(marks: &[bool], phis: &[Phi]) -> bool
    ensures { result ≡ list_any (λ f. not (marked_in marks.now f.reg.0)) phis.now }
{
    for phi in phis {
        if !is_kept(marks, phi.reg) {
            return true;
        }
    }
    false
}

/// Whether an instruction gives a register that is not kept.
fn loses(marks: &[bool], i: &FlatInstr) -> bool
    ensures { result ≡ loses (marked_in marks.now) i.now }
{
    match i.result() {
        Some(d) => !is_kept(marks, d),
        None => false,
    }
}

fn code_loses(marks: &[bool], code: &[FlatInstr]) -> bool
    ensures { result ≡ list_any (loses (marked_in marks.now)) code.now }
{
    for instr in code {
        if loses(marks, instr) {
            return true;
        }
    }
    false
}

fn block_loses(marks: &[bool], block: &FlatBlock) -> bool
    ensures { result ≡ block_loses (marked_in marks.now) block.now }
{
    phis_lose(marks, block.phis.as_slice()) || code_loses(marks, block.code.as_slice())
}

/// Whether some phi or instruction gives a register that is not kept.
fn any_dead(marks: &[bool], blocks: &[FlatBlock]) -> bool
    ensures { result ≡ list_any (block_loses (marked_in marks.now)) blocks.now }
{
    for block in blocks {
        if block_loses(marks, block) {
            return true;
        }
    }
    false
}

/// The body where only marked registers are left.
fn only_registers(alloc: Global, marks: &[bool], b: FlatBody) -> Result<FlatBody, AllocError>
    ensures { IfOk result (λ new. new ≡ only_registers (marked_in marks.now) b) }
{
    let FlatBody {
        params,
        regs,
        blocks,
    } = b;
    let blocks = blocks_kept(alloc, marks, blocks)?;
    Ok(FlatBody {
        params,
        regs,
        blocks,
    })
}

/// Drops dead code as `drop_dead` does, and tells whether there was some. Where there was none, the body is only read.
#[tactic(auto, unfolding(crate::specs::DropDead::dead_dropped))]
pub fn dead_pass(alloc: Global, b: FlatBody) -> Result<Passed, NoMemory>
    requires formed { IsWellFormed b }
    ensures body { IfOk result (λ p. p.body ≡ dead_dropped b) }
    ensures same { IfOk result (λ p. p.changed ≡ false → p.body ≡ b) }
{
    let marks = needed(alloc, &b)?;
    if any_dead(marks.as_slice(), b.blocks.as_slice()) {
        Ok(Passed {
            body: only_registers(alloc, marks.as_slice(), b)?,
            changed: true,
        })
    } else {
        Ok(Passed {
            body: b,
            changed: false,
        })
    }
}

/// Drops dead code.
///
/// A register is needed where a store, a call, a put, an exit or a terminator uses it, or the instruction of a needed register
/// does. An instruction whose result isn't needed is dropped; a call, a put or a get loses its result instead.
pub fn drop_dead(alloc: Global, b: FlatBody) -> Result<FlatBody, NoMemory>
    requires formed { IsWellFormed b }
    ensures { IfOk result (λ new. new ≡ dead_dropped b) }
{
    let Passed { body, changed: _ } = dead_pass(alloc, b)?;
    Ok(body)
}
