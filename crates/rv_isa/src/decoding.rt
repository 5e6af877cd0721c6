ghost use Rattle.std.specs.Prelude.{◌≡◌, ◌<◌, ◌^◌, IfSome, pos};
ghost use Rattle.oi_base.specs.Words.{signed_of};
ghost use Rattle.rv_isa.specs.Words.{word_of, InRange};
ghost use Rattle.rv_isa.specs.Decode.{decode_of, branch_of, load_of, store_of, op_imm_of, shift_left_of, shift_right_of, op_of, base_op_of, other_op_of, multiply_of, jalr_of, fence_of, system_of, opcode_of, funct3_of, funct7_of, rd_of, rs1_of, rs2_of, imm_i, imm_s, imm_b, imm_u, imm_j};
ghost use Rattle.rv_isa.specs.declared.rv.Rv.{Rv};

use crate::encoding::{EBREAK_WORD, ECALL_WORD};
use crate::fields::field;
use crate::rv::{Rv, X};

/// The instruction of a word, or `None` exactly where no instruction has the word (RISC-V Unprivileged
/// ISA, "RV32/64G Instruction Set Listings").
pub fn decode(w: u32) -> Option<Rv>
    ensures value { result ≡ decode_of w }
    ensures encodes { IfSome result (λ i. InRange i × (word_of i ≡ w)) }
    ensures every_instruction { (i : Rv) → InRange i → word_of i ≡ w → result ≡ Some i }
{
    by_opcode(w)
}

#[tactic(auto, unfolding(crate::specs::Decode::decode_of))]
fn by_opcode(w: u32) -> Option<Rv>
    ensures { result ≡ decode_of w }
{
    match opcode(w) {
        0x37 => Some(Rv::Lui(rd(w), u_immediate(w))),
        0x17 => Some(Rv::Auipc(rd(w), u_immediate(w))),
        0x6f => Some(Rv::Jal(rd(w), j_immediate(w))),
        0x67 => jalr(w),
        0x63 => branch(w),
        0x03 => load(w),
        0x23 => store(w),
        0x13 => op_imm(w),
        0x33 => op(w),
        0x0f => fence(w),
        0x73 => system(w),
        _ => None,
    }
}

#[tactic(auto, unfolding(crate::specs::Decode::jalr_of))]
fn jalr(w: u32) -> Option<Rv>
    ensures { result ≡ jalr_of w }
{
    match funct3(w) {
        0 => Some(Rv::Jalr(rd(w), rs1(w), i_immediate(w))),
        _ => None,
    }
}

#[tactic(auto, unfolding(crate::specs::Decode::branch_of))]
fn branch(w: u32) -> Option<Rv>
    ensures { result ≡ branch_of w }
{
    match funct3(w) {
        0 => Some(Rv::Beq(rs1(w), rs2(w), b_immediate(w))),
        1 => Some(Rv::Bne(rs1(w), rs2(w), b_immediate(w))),
        4 => Some(Rv::Blt(rs1(w), rs2(w), b_immediate(w))),
        5 => Some(Rv::Bge(rs1(w), rs2(w), b_immediate(w))),
        6 => Some(Rv::Bltu(rs1(w), rs2(w), b_immediate(w))),
        7 => Some(Rv::Bgeu(rs1(w), rs2(w), b_immediate(w))),
        _ => None,
    }
}

#[tactic(auto, unfolding(crate::specs::Decode::load_of))]
fn load(w: u32) -> Option<Rv>
    ensures { result ≡ load_of w }
{
    match funct3(w) {
        0 => Some(Rv::Lb(rd(w), rs1(w), i_immediate(w))),
        1 => Some(Rv::Lh(rd(w), rs1(w), i_immediate(w))),
        2 => Some(Rv::Lw(rd(w), rs1(w), i_immediate(w))),
        4 => Some(Rv::Lbu(rd(w), rs1(w), i_immediate(w))),
        5 => Some(Rv::Lhu(rd(w), rs1(w), i_immediate(w))),
        _ => None,
    }
}

#[tactic(auto, unfolding(crate::specs::Decode::store_of))]
fn store(w: u32) -> Option<Rv>
    ensures { result ≡ store_of w }
{
    match funct3(w) {
        0 => Some(Rv::Sb(rs1(w), rs2(w), s_immediate(w))),
        1 => Some(Rv::Sh(rs1(w), rs2(w), s_immediate(w))),
        2 => Some(Rv::Sw(rs1(w), rs2(w), s_immediate(w))),
        _ => None,
    }
}

/// An operation with a constant.
#[tactic(auto, unfolding(crate::specs::Decode::op_imm_of))]
fn op_imm(w: u32) -> Option<Rv>
    ensures { result ≡ op_imm_of w }
{
    match funct3(w) {
        0 => Some(Rv::Addi(rd(w), rs1(w), i_immediate(w))),
        1 => shift_left(w),
        2 => Some(Rv::Slti(rd(w), rs1(w), i_immediate(w))),
        3 => Some(Rv::Sltiu(rd(w), rs1(w), i_immediate(w))),
        4 => Some(Rv::Xori(rd(w), rs1(w), i_immediate(w))),
        5 => shift_right(w),
        6 => Some(Rv::Ori(rd(w), rs1(w), i_immediate(w))),
        7 => Some(Rv::Andi(rd(w), rs1(w), i_immediate(w))),
        _ => None,
    }
}

/// A shift to the left by a constant, whose upper seven bits are 0.
#[tactic(auto, unfolding(crate::specs::Decode::shift_left_of))]
fn shift_left(w: u32) -> Option<Rv>
    ensures { result ≡ shift_left_of w }
{
    match funct7(w) {
        0x00 => Some(Rv::Slli(rd(w), rs1(w), amount(w))),
        _ => None,
    }
}

/// A shift to the right by a constant, whose upper seven bits say whether the sign is copied.
#[tactic(auto, unfolding(crate::specs::Decode::shift_right_of))]
fn shift_right(w: u32) -> Option<Rv>
    ensures { result ≡ shift_right_of w }
{
    match funct7(w) {
        0x00 => Some(Rv::Srli(rd(w), rs1(w), amount(w))),
        0x20 => Some(Rv::Srai(rd(w), rs1(w), amount(w))),
        _ => None,
    }
}

/// An operation on two registers.
#[tactic(auto, unfolding(crate::specs::Decode::op_of))]
fn op(w: u32) -> Option<Rv>
    ensures { result ≡ op_of w }
{
    match funct7(w) {
        0x00 => base_op(w),
        0x20 => other_op(w),
        0x01 => multiply(w),
        _ => None,
    }
}

#[tactic(auto, unfolding(crate::specs::Decode::base_op_of))]
fn base_op(w: u32) -> Option<Rv>
    ensures { result ≡ base_op_of w }
{
    match funct3(w) {
        0 => Some(Rv::Add(rd(w), rs1(w), rs2(w))),
        1 => Some(Rv::Sll(rd(w), rs1(w), rs2(w))),
        2 => Some(Rv::Slt(rd(w), rs1(w), rs2(w))),
        3 => Some(Rv::Sltu(rd(w), rs1(w), rs2(w))),
        4 => Some(Rv::Xor(rd(w), rs1(w), rs2(w))),
        5 => Some(Rv::Srl(rd(w), rs1(w), rs2(w))),
        6 => Some(Rv::Or(rd(w), rs1(w), rs2(w))),
        7 => Some(Rv::And(rd(w), rs1(w), rs2(w))),
        _ => None,
    }
}

#[tactic(auto, unfolding(crate::specs::Decode::other_op_of))]
fn other_op(w: u32) -> Option<Rv>
    ensures { result ≡ other_op_of w }
{
    match funct3(w) {
        0 => Some(Rv::Sub(rd(w), rs1(w), rs2(w))),
        5 => Some(Rv::Sra(rd(w), rs1(w), rs2(w))),
        _ => None,
    }
}

/// Multiplication and division, the extension M.
#[tactic(auto, unfolding(crate::specs::Decode::multiply_of))]
fn multiply(w: u32) -> Option<Rv>
    ensures { result ≡ multiply_of w }
{
    match funct3(w) {
        0 => Some(Rv::Mul(rd(w), rs1(w), rs2(w))),
        1 => Some(Rv::Mulh(rd(w), rs1(w), rs2(w))),
        2 => Some(Rv::Mulhsu(rd(w), rs1(w), rs2(w))),
        3 => Some(Rv::Mulhu(rd(w), rs1(w), rs2(w))),
        4 => Some(Rv::Div(rd(w), rs1(w), rs2(w))),
        5 => Some(Rv::Divu(rd(w), rs1(w), rs2(w))),
        6 => Some(Rv::Rem(rd(w), rs1(w), rs2(w))),
        7 => Some(Rv::Remu(rd(w), rs1(w), rs2(w))),
        _ => None,
    }
}

#[tactic(auto, unfolding(crate::specs::Decode::fence_of))]
fn fence(w: u32) -> Option<Rv>
    ensures { result ≡ fence_of w }
{
    match funct3(w) {
        0 => Some(Rv::Fence(rd(w), rs1(w), i_immediate(w))),
        _ => None,
    }
}

#[tactic(auto, unfolding(crate::specs::Decode::system_of))]
fn system(w: u32) -> Option<Rv>
    ensures { result ≡ system_of w }
{
    match w {
        ECALL_WORD => Some(Rv::Ecall),
        EBREAK_WORD => Some(Rv::Ebreak),
        _ => None,
    }
}

fn opcode(w: u32) -> u32
    ensures { result ≡ opcode_of w }
{
    field(w, 6, 0)
}

fn funct3(w: u32) -> u32
    ensures { result ≡ funct3_of w }
{
    field(w, 14, 12)
}

fn funct7(w: u32) -> u32
    ensures { result ≡ funct7_of w }
{
    field(w, 31, 25)
}

fn rd(w: u32) -> X
    ensures { result ≡ rd_of w }
{
    X::new(field(w, 11, 7) as u8)
}

fn rs1(w: u32) -> X
    ensures { result ≡ rs1_of w }
{
    X::new(field(w, 19, 15) as u8)
}

fn rs2(w: u32) -> X
    ensures { result ≡ rs2_of w }
{
    X::new(field(w, 24, 20) as u8)
}

/// The distance of a shift by a constant.
fn amount(w: u32) -> i32
    ensures { result ≡ pos (rs2_of w) }
{
    field(w, 24, 20).cast_signed()
}

#[tactic(auto, unfolding(crate::specs::Decode::imm_i))]
fn i_immediate(w: u32) -> i32
    ensures { result ≡ imm_i w }
{
    signed(0x1000, field(w, 31, 20))
}

#[tactic(auto, unfolding(crate::specs::Decode::imm_s))]
fn s_immediate(w: u32) -> i32
    ensures { result ≡ imm_s w }
{
    signed(0x1000, field(w, 31, 25) * 0x20 + field(w, 11, 7))
}

#[tactic(auto, unfolding(crate::specs::Decode::imm_b))]
fn b_immediate(w: u32) -> i32
    ensures { result ≡ imm_b w }
{
    let upper = field(w, 31, 31) * 0x1000 + field(w, 7, 7) * 0x800;
    signed(
        0x2000,
        upper + field(w, 30, 25) * 0x20 + field(w, 11, 8) * 2,
    )
}

#[tactic(auto, unfolding(crate::specs::Decode::imm_u))]
fn u_immediate(w: u32) -> i32
    ensures { result ≡ imm_u w }
{
    signed(0x10_0000, field(w, 31, 12))
}

#[tactic(auto, unfolding(crate::specs::Decode::imm_j))]
fn j_immediate(w: u32) -> i32
    ensures { result ≡ imm_j w }
{
    let upper = field(w, 31, 31) * 0x10_0000 + field(w, 19, 12) * 0x1000;
    signed(
        0x20_0000,
        upper + field(w, 20, 20) * 0x800 + field(w, 30, 21) * 2,
    )
}

/// The signed number of these bits in two's complement, where there are so many words.
fn signed(words: u32, bits: u32) -> i32
    requires below { bits < words }
    requires narrow { words < 2 ^ 31 }
    ensures { result ≡ signed_of words bits }
{
    if bits < words / 2 {
        bits.cast_signed()
    } else {
        bits.cast_signed() - words.cast_signed()
    }
}
