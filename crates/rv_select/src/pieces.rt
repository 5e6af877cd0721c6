ghost use Rattle.std.specs.Prelude.{◌≡◌, ◌<◌, ◌≤◌, ◌+◌, ◌*◌, ◌++◌, ◌∷◌, [], OnOk, pos, ◌≤ℤ◌, ◌<ℤ◌};
ghost use Rattle.rv_isa.specs.declared.rv.Rv.TheVariants as rv;
ghost use Rattle.rv_isa.specs.Words.{InRange, IsSigned};
ghost use Rattle.oi_base.specs.Words.{signed_of};
ghost use Rattle.rv_select.specs.Pending.{words};
ghost use Rattle.rv_select.specs.Parts.{hi, lo, load_word, far_base, load_slot, store_slot, load_home, load_address, frame_down, frame_up, open_frame, epilogue, zero_extend, sign_extend};

use crate::builder::CodeBuilder;
use oi_base::{NoMemory, Width};
use rv_isa::{Rv, X};

/// The signed number of these bits, of which `sign` is the highest.
fn signed(bits: u32, sign: u32) -> i32
    requires sign { sign ≤ 524288 }
    requires bits { bits < 2 * sign }
    ensures { result ≡ signed_of (2 * sign) bits }
{
    if bits < sign {
        bits as i32
    } else {
        bits as i32 - (2 * sign) as i32
    }
}

/// The upper part of a word, for `lui` and `auipc`.
#[tactic(auto, unfolding(crate::specs::Parts::hi))]
pub fn hi(w: u32) -> i32
    requires { w < 4294967296 }
    ensures value { result ≡ hi w }
    ensures range { IsSigned 19 result }
{
    signed(w.wrapping_add(2048) / 4096, 0x8_0000)
}

/// The lower part of a word, which an instruction after them adds.
#[tactic(auto, unfolding(crate::specs::Parts::lo))]
pub fn lo(w: u32) -> i32
    ensures value { result ≡ lo w }
    ensures range { IsSigned 11 result }
{
    signed(w % 4096, 2048)
}

/// Appends what loads a word into a register.
#[tactic(auto, unfolding(crate::specs::Parts::load_word))]
pub fn push_word(code: &mut CodeBuilder, r: X, w: u32) -> Result<(), NoMemory>
    requires { r < 32 }
    ensures { OnOk result (code.new ≡ code.old ++ words (load_word r w)) }
{
    if !(2048..0xffff_f800).contains(&w) {
        return code.push(Rv::Addi(r, X::ZERO, lo(w)));
    }
    if w % 4096 == 0 {
        return code.push(Rv::Lui(r, hi(w)));
    }
    code.push_two(Rv::Lui(r, hi(w)), Rv::Addi(r, r, lo(w)))
}

/// Appends what puts the stack pointer and the upper part of an offset into a register.
fn push_far_base(code: &mut CodeBuilder, r: X, offset: u32) -> Result<(), NoMemory>
    requires { r < 32 }
    ensures { OnOk result (code.new ≡ code.old ++ words (far_base r offset)) }
{
    code.push_two(Rv::Lui(r, hi(offset)), Rv::Add(r, r, X::SP))
}

/// Appends what loads the slot at an offset into a register.
#[tactic(auto, unfolding(crate::specs::Parts::load_slot))]
pub fn push_load_slot(code: &mut CodeBuilder, r: X, offset: u32) -> Result<(), NoMemory>
    requires { r < 32 }
    ensures { OnOk result (code.new ≡ code.old ++ words (load_slot r offset)) }
{
    if offset <= 2047 {
        return code.push(Rv::Lw(r, X::SP, offset as i32));
    }
    push_far_base(code, r, offset)?;
    code.push(Rv::Lw(r, r, lo(offset)))
}

/// Appends what stores a register into the slot at an offset.
#[tactic(auto, unfolding(crate::specs::Parts::store_slot))]
pub fn push_store_slot(code: &mut CodeBuilder, r: X, offset: u32) -> Result<(), NoMemory>
    requires { r < 32 }
    ensures { OnOk result (code.new ≡ code.old ++ words (store_slot r offset)) }
{
    if offset <= 2047 {
        return code.push(Rv::Sw(X::SP, r, offset as i32));
    }
    push_far_base(code, X::T2, offset)?;
    code.push(Rv::Sw(X::T2, r, lo(offset)))
}

/// Appends what puts the address of the memory at an offset into a register.
#[tactic(auto, unfolding(crate::specs::Parts::load_home))]
pub fn push_home(code: &mut CodeBuilder, r: X, offset: u32) -> Result<(), NoMemory>
    requires { r < 32 }
    ensures { OnOk result (code.new ≡ code.old ++ words (load_home r offset)) }
{
    if offset <= 2047 {
        return code.push(Rv::Addi(r, X::SP, offset as i32));
    }
    push_high_low(code, r, offset)?;
    code.push(Rv::Add(r, r, X::SP))
}

/// Appends what puts a word into a register in two instructions.
fn push_high_low(code: &mut CodeBuilder, r: X, w: u32) -> Result<(), NoMemory>
    requires { r < 32 }
    ensures { OnOk result (code.new ≡ code.old ++ words (load_address r w)) }
{
    code.push_two(Rv::Lui(r, hi(w)), Rv::Addi(r, r, lo(w)))
}

/// Appends what moves the stack pointer down by a frame.
#[tactic(auto, unfolding(crate::specs::Parts::frame_down))]
fn push_frame_down(code: &mut CodeBuilder, frame: u32) -> Result<(), NoMemory>
    ensures { OnOk result (code.new ≡ code.old ++ words (frame_down frame)) }
{
    if frame <= 2032 {
        return code.push(Rv::Addi(X::SP, X::SP, -(frame as i32)));
    }
    push_high_low(code, X::T0, frame)?;
    code.push(Rv::Sub(X::SP, X::SP, X::T0))
}

/// Appends what moves the stack pointer up by a frame.
#[tactic(auto, unfolding(crate::specs::Parts::frame_up))]
fn push_frame_up(code: &mut CodeBuilder, frame: u32) -> Result<(), NoMemory>
    ensures { OnOk result (code.new ≡ code.old ++ words (frame_up frame)) }
{
    if frame <= 2032 {
        return code.push(Rv::Addi(X::SP, X::SP, frame as i32));
    }
    push_high_low(code, X::T0, frame)?;
    code.push(Rv::Add(X::SP, X::SP, X::T0))
}

/// Appends what opens a frame.
pub fn push_open_frame(code: &mut CodeBuilder, frame: u32) -> Result<(), NoMemory>
    ensures { OnOk result (code.new ≡ code.old ++ words (open_frame frame)) }
{
    push_frame_down(code, frame)?;
    code.push(Rv::Sw(X::SP, X::RA, 0))
}

/// Appends what closes a frame and returns.
pub fn push_epilogue(code: &mut CodeBuilder, frame: u32) -> Result<(), NoMemory>
    ensures { OnOk result (code.new ≡ code.old ++ words (epilogue frame)) }
{
    code.push(Rv::Lw(X::RA, X::SP, 0))?;
    push_frame_up(code, frame)?;
    code.push(Rv::Jalr(X::ZERO, X::RA, 0))
}

/// Appends what extends a narrow word in a register by zeros.
pub fn push_zero_extend(code: &mut CodeBuilder, w: Width, r: X) -> Result<(), NoMemory>
    requires { r < 32 }
    ensures { OnOk result (code.new ≡ code.old ++ words (zero_extend w r)) }
{
    match w {
        Width::W1 => code.push(Rv::Andi(r, r, 1)),
        Width::W8 => code.push(Rv::Andi(r, r, 255)),
        Width::W16 => { code.push_two(Rv::Slli(r, r, 16), Rv::Srli(r, r, 16)) }
        Width::W32 => Ok(()),
    }
}

/// Appends what extends a narrow word in a register by its sign.
pub fn push_sign_extend(code: &mut CodeBuilder, w: Width, r: X) -> Result<(), NoMemory>
    requires { r < 32 }
    ensures { OnOk result (code.new ≡ code.old ++ words (sign_extend w r)) }
{
    match w {
        Width::W1 => push_shifts(code, 31, r),
        Width::W8 => push_shifts(code, 24, r),
        Width::W16 => push_shifts(code, 16, r),
        Width::W32 => Ok(()),
    }
}

/// Appends a shift to the left and one back, which copies the sign.
fn push_shifts(code: &mut CodeBuilder, distance: i32, r: X) -> Result<(), NoMemory>
    requires register { r < 32 }
    requires low { pos 0 ≤ℤ distance }
    requires high { distance <ℤ pos 32 }
    ensures { OnOk result (code.new ≡ code.old ++ words (rv.Slli r r distance ∷ rv.Srai r r distance ∷ [])) }
{
    code.push_two(Rv::Slli(r, r, distance), Rv::Srai(r, r, distance))
}
