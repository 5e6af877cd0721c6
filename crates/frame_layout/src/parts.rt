ghost use Rattle.std.specs.Prelude.{◌≡◌, ◌++◌, ◌∷◌, [], ◌<◌, ◌^◌, map, OnOk, IfOk};
ghost use Rattle.std.specs.List.{filter_map, flat_map};
ghost use Rattle.std.specs.Option.{option_map};
ghost use Rattle.frame_layout.specs.Parts.{parts, param_parts, slots, allocas, block_slots, block_allocas, phi_part, slot_part, slot_for, alloca_part, begin_of, end_of, size_of, IsNeed};

use ir_core::{FlatBlock, FlatBody, FlatInstr, Phi};
use oi_base::{NoMemory, RegId};
use std::alloc::Global;

/// What a register takes in a frame.
#[derive(Clone, Copy, Debug, PartialEq, Eq)]
pub enum Need {
    Slot,
    SlotAndShadow,
    /// The memory of an alloca: its size and its alignment in bytes.
    Memory(u32, u32),
}

/// A part of a frame.
#[derive(Clone, Copy, Debug, PartialEq, Eq)]
pub struct Part {
    pub reg: RegId,
    pub need: Need,
}

impl Need {
    /// Where a part with this need begins, where the one before it ends at an offset.
    pub fn begin(self, at: u64) -> u64
        requires need { IsNeed self }
        requires room { end_of at self < 2 ^ 64 }
        ensures { result ≡ begin_of at self }
    {
        match self {
            Need::Slot | Need::SlotAndShadow => at,
            Need::Memory(_, align) => at.next_multiple_of(align as u64),
        }
    }

    /// Where such a part ends.
    pub fn end(self, at: u64) -> u64
        requires need { IsNeed self }
        requires room { end_of at self < 2 ^ 64 }
        ensures { result ≡ end_of at self }
    {
        self.begin(at) + self.size() as u64
    }

    fn size(self) -> u32
        ensures { result ≡ size_of self }
    {
        match self {
            Need::Slot => 4,
            Need::SlotAndShadow => 8,
            Need::Memory(size, _) => size,
        }
    }
}

/// The parts of a body's frame after the return address, in its order: each parameter, each register that is no
/// alloca in the order of the body's text, and each alloca in that order.
pub fn parts(alloc: Global, b: &FlatBody) -> Result<Vec<Part>, NoMemory>
    ensures { IfOk result (λ ps. ps.items ≡ parts b.now) }
{
    let mut parts = param_parts(alloc, b.params)?;
    push_slots(&mut parts, b)?;
    push_allocas(&mut parts, b)?;
    Ok(parts)
}

fn param_parts(alloc: Global, params: u32) -> Result<Vec<Part>, NoMemory>
    ensures { IfOk result (λ ps. ps.items ≡ param_parts params) }
{
    let mut parts = Vec::new(alloc);
    for r in 0..params {
        parts.push(slot_for(RegId(r)))?;
    }
    Ok(parts)
}

fn push_slots(parts: &mut Vec<Part>, b: &FlatBody) -> Result<(), NoMemory>
    ensures { OnOk result (parts.new.items ≡ parts.old.items ++ flat_map block_slots b.now.blocks) }
{
    for block in b.blocks.as_slice() {
        push_phis(parts, block.phis.as_slice())?;
        push_results(parts, block.code.as_slice())?;
    }
    Ok(())
}

fn push_phis(parts: &mut Vec<Part>, phis: &[Phi]) -> Result<(), NoMemory>
    ensures { OnOk result (parts.new.items ≡ parts.old.items ++ map phi_part phis.now) }
{
    for phi in phis {
        parts.push(Part {
            reg: phi.reg,
            need: Need::SlotAndShadow,
        })?;
    }
    Ok(())
}

fn push_results(parts: &mut Vec<Part>, code: &[FlatInstr]) -> Result<(), NoMemory>
    ensures { OnOk result (parts.new.items ≡ parts.old.items ++ filter_map slot_part code.now) }
{
    for instr in code {
        if let Some(part) = slot_part(instr) {
            parts.push(part)?;
        }
    }
    Ok(())
}

fn push_allocas(parts: &mut Vec<Part>, b: &FlatBody) -> Result<(), NoMemory>
    ensures { OnOk result (parts.new.items ≡ parts.old.items ++ allocas b.now) }
{
    for block in b.blocks.as_slice() {
        push_block_allocas(parts, block)?;
    }
    Ok(())
}

fn push_block_allocas(parts: &mut Vec<Part>, block: &FlatBlock) -> Result<(), NoMemory>
    ensures { OnOk result (parts.new.items ≡ parts.old.items ++ block_allocas block.now) }
{
    for instr in block.code.as_slice() {
        if let Some(part) = alloca_part(instr) {
            parts.push(part)?;
        }
    }
    Ok(())
}

fn slot_for(reg: RegId) -> Part
    ensures { result ≡ slot_for reg }
{
    Part {
        reg,
        need: Need::Slot,
    }
}

/// A slot for the register that an instruction writes, but of an alloca.
fn slot_part(instr: &FlatInstr) -> Option<Part>
    ensures { result ≡ slot_part instr.now }
{
    match instr {
        FlatInstr::Alloca(_, _, _) => None,
        _ => result_part(instr.result()),
    }
}

/// A slot for a result, if there is one.
fn result_part(reg: Option<RegId>) -> Option<Part>
    ensures { result ≡ option_map slot_for reg }
{
    match reg {
        Some(r) => Some(slot_for(r)),
        None => None,
    }
}

/// The memory of an alloca.
fn alloca_part(instr: &FlatInstr) -> Option<Part>
    ensures { result ≡ alloca_part instr.now }
{
    match instr {
        FlatInstr::Alloca(r, size, align) => Some(Part {
            reg: *r,
            need: Need::Memory(*size, *align),
        }),
        _ => None,
    }
}
