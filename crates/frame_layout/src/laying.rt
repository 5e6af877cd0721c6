ghost use Rattle.std.specs.Prelude.{◌≡◌, ◌≤◌, ℕ, All, IfOk, IfErr, length};
ghost use Rattle.ir_core.specs.WellFormed.{IsWellFormed};
ghost use Rattle.frame_layout.specs.Offsets.{slot_of, shadow_of, place_of};
ghost use Rattle.frame_layout.specs.Parts.{IsPart};
ghost use Rattle.frame_layout.specs.Frame.{size, offsets, frame, frame_of, slot, shadow, place, IsRefused};

use crate::faults::FrameFault;
use crate::frame::Frame;
use crate::homes::{end, homes};
use crate::parts::{Part, parts};
use ir_core::FlatBody;
use std::alloc::Global;

/// The size of the largest frame, in bytes.
pub const LARGEST_FRAME: u64 = 65_536;

/// Where the frame of a body keeps each register.
///
/// The return address is at 0. From 4 on each parameter, and then each register in the order of the body's text but
/// allocas, has four bytes; a phi has eight, its slot and then its shadow. Then each alloca, in that order, stands at
/// the next multiple of its alignment. The whole is rounded up to 16.
pub fn layout(alloc: Global, b: &FlatBody) -> Result<Frame, FrameFault>
    requires { IsWellFormed b.now }
    ensures frame { IfOk result (λ f. f ≡ frame_of b.now) }
    ensures fits { IfOk result (λ f. frame b.now ≤ LARGEST_FRAME) }
    ensures bytes { IfOk result (λ f. f.bytes ≡ frame b.now) }
    ensures slots { IfOk result (λ f. (r : ℕ) → slot_of f r ≡ slot b.now r) }
    ensures shadows { IfOk result (λ f. (r : ℕ) → shadow_of f r ≡ shadow b.now r) }
    ensures places { IfOk result (λ f. (r : ℕ) → place_of f r ≡ place b.now r) }
    ensures refused { IfErr result (λ e. IsRefused (frame b.now) e) }
{
    let parts = parts(alloc, b)?;
    framed(alloc, b.regs, &parts)
}

/// The frame of so many registers with these parts.
pub fn framed(alloc: Global, regs: u32, parts: &[Part]) -> Result<Frame, FrameFault>
    requires few { length parts.now ≤ regs }
    requires parts { All (IsPart regs) parts.now }
    ensures frame { IfOk result (λ f. f ≡ offsets regs parts.now) }
    ensures fits { IfOk result (λ f. size parts.now ≤ LARGEST_FRAME) }
    ensures refused { IfErr result (λ e. IsRefused (size parts.now) e) }
{
    let bytes = end(parts).next_multiple_of(16);
    if bytes > LARGEST_FRAME {
        return Err(FrameFault::FrameTooLarge(bytes));
    }
    let homes = homes(alloc, regs, parts)?;
    Ok(Frame::new(bytes as u32, homes))
}
