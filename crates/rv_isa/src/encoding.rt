ghost use Rattle.std.specs.Prelude.{◌≡◌, ◌+◌, ◌*◌, ◌^◌, ◌<◌};
ghost use Rattle.rv_isa.specs.Words.{word_of, InRange, low_bits as low_bits_of, r_word as r_word_of, i_word as i_word_of, s_word as s_word_of, b_word as b_word_of, u_word as u_word_of, j_word as j_word_of};

use crate::fields::{field, low_bits, with};
use crate::rv::{Rv, X};

/// The word of `ecall`.
pub const ECALL_WORD: u32 = 0x0000_0073;

/// The word of `ebreak`.
pub const EBREAK_WORD: u32 = 0x0010_0073;

/// The word of an instruction (RISC-V Unprivileged ISA, "RV32/64G Instruction Set Listings").
pub fn encode(i: Rv) -> u32
    requires { InRange i }
    ensures { result ≡ word_of i }
{
    match i {
        Rv::Lui(rd, imm) => u_word(0x37, rd, imm),
        Rv::Auipc(rd, imm) => u_word(0x17, rd, imm),
        Rv::Jal(rd, distance) => j_word(0x6f, rd, distance),
        Rv::Jalr(rd, rs1, imm) => i_word(0x67, 0, rd, rs1, imm),
        Rv::Beq(rs1, rs2, distance) => b_word(0x63, 0, rs1, rs2, distance),
        Rv::Bne(rs1, rs2, distance) => b_word(0x63, 1, rs1, rs2, distance),
        Rv::Blt(rs1, rs2, distance) => b_word(0x63, 4, rs1, rs2, distance),
        Rv::Bge(rs1, rs2, distance) => b_word(0x63, 5, rs1, rs2, distance),
        Rv::Bltu(rs1, rs2, distance) => b_word(0x63, 6, rs1, rs2, distance),
        Rv::Bgeu(rs1, rs2, distance) => b_word(0x63, 7, rs1, rs2, distance),
        Rv::Lb(rd, rs1, imm) => i_word(0x03, 0, rd, rs1, imm),
        Rv::Lh(rd, rs1, imm) => i_word(0x03, 1, rd, rs1, imm),
        Rv::Lw(rd, rs1, imm) => i_word(0x03, 2, rd, rs1, imm),
        Rv::Lbu(rd, rs1, imm) => i_word(0x03, 4, rd, rs1, imm),
        Rv::Lhu(rd, rs1, imm) => i_word(0x03, 5, rd, rs1, imm),
        Rv::Sb(rs1, rs2, imm) => s_word(0x23, 0, rs1, rs2, imm),
        Rv::Sh(rs1, rs2, imm) => s_word(0x23, 1, rs1, rs2, imm),
        Rv::Sw(rs1, rs2, imm) => s_word(0x23, 2, rs1, rs2, imm),
        Rv::Addi(rd, rs1, imm) => i_word(0x13, 0, rd, rs1, imm),
        Rv::Slti(rd, rs1, imm) => i_word(0x13, 2, rd, rs1, imm),
        Rv::Sltiu(rd, rs1, imm) => i_word(0x13, 3, rd, rs1, imm),
        Rv::Xori(rd, rs1, imm) => i_word(0x13, 4, rd, rs1, imm),
        Rv::Ori(rd, rs1, imm) => i_word(0x13, 6, rd, rs1, imm),
        Rv::Andi(rd, rs1, imm) => i_word(0x13, 7, rd, rs1, imm),
        Rv::Slli(rd, rs1, amount) => shift_word(1, 0x00, rd, rs1, amount),
        Rv::Srli(rd, rs1, amount) => shift_word(5, 0x00, rd, rs1, amount),
        Rv::Srai(rd, rs1, amount) => shift_word(5, 0x20, rd, rs1, amount),
        Rv::Add(rd, rs1, rs2) => r_word(0, 0x00, rd, rs1, rs2),
        Rv::Sub(rd, rs1, rs2) => r_word(0, 0x20, rd, rs1, rs2),
        Rv::Sll(rd, rs1, rs2) => r_word(1, 0x00, rd, rs1, rs2),
        Rv::Slt(rd, rs1, rs2) => r_word(2, 0x00, rd, rs1, rs2),
        Rv::Sltu(rd, rs1, rs2) => r_word(3, 0x00, rd, rs1, rs2),
        Rv::Xor(rd, rs1, rs2) => r_word(4, 0x00, rd, rs1, rs2),
        Rv::Srl(rd, rs1, rs2) => r_word(5, 0x00, rd, rs1, rs2),
        Rv::Sra(rd, rs1, rs2) => r_word(5, 0x20, rd, rs1, rs2),
        Rv::Or(rd, rs1, rs2) => r_word(6, 0x00, rd, rs1, rs2),
        Rv::And(rd, rs1, rs2) => r_word(7, 0x00, rd, rs1, rs2),
        Rv::Mul(rd, rs1, rs2) => r_word(0, 0x01, rd, rs1, rs2),
        Rv::Mulh(rd, rs1, rs2) => r_word(1, 0x01, rd, rs1, rs2),
        Rv::Mulhsu(rd, rs1, rs2) => r_word(2, 0x01, rd, rs1, rs2),
        Rv::Mulhu(rd, rs1, rs2) => r_word(3, 0x01, rd, rs1, rs2),
        Rv::Div(rd, rs1, rs2) => r_word(4, 0x01, rd, rs1, rs2),
        Rv::Divu(rd, rs1, rs2) => r_word(5, 0x01, rd, rs1, rs2),
        Rv::Rem(rd, rs1, rs2) => r_word(6, 0x01, rd, rs1, rs2),
        Rv::Remu(rd, rs1, rs2) => r_word(7, 0x01, rd, rs1, rs2),
        Rv::Fence(rd, rs1, imm) => i_word(0x0f, 0, rd, rs1, imm),
        Rv::Ecall => ECALL_WORD,
        Rv::Ebreak => EBREAK_WORD,
    }
}

/// A word in the R format, with the opcode OP.
fn r_word(funct3: u32, funct7: u32, rd: X, rs1: X, rs2: X) -> u32
    requires funct3 { funct3 < 8 }
    requires funct7 { funct7 < 128 }
    ensures { result ≡ r_word_of 0x33 funct3 funct7 rd rs1 rs2 }
{
    let word = with(0x33, 7, u32::from(rd.number()));
    let word = with(word, 12, funct3);
    let word = with(word, 15, u32::from(rs1.number()));
    let word = with(word, 20, u32::from(rs2.number()));
    with(word, 25, funct7)
}

fn i_word(opcode: u32, funct3: u32, rd: X, rs1: X, imm: i32) -> u32
    requires opcode { opcode < 128 }
    requires funct3 { funct3 < 8 }
    ensures { result ≡ i_word_of opcode funct3 rd rs1 (low_bits_of 12 imm) }
{
    let word = with(opcode, 7, u32::from(rd.number()));
    let word = with(word, 12, funct3);
    let word = with(word, 15, u32::from(rs1.number()));
    with(word, 20, low_bits(12, imm))
}

/// A shift by a constant: the I format with the opcode OP-IMM, and funct7 above the amount.
fn shift_word(funct3: u32, funct7: u32, rd: X, rs1: X, amount: i32) -> u32
    requires funct3 { funct3 < 8 }
    requires funct7 { funct7 < 128 }
    ensures { result ≡ i_word_of 0x13 funct3 rd rs1 (funct7 * 2 ^ 5 + low_bits_of 5 amount) }
{
    let word = with(0x13, 7, u32::from(rd.number()));
    let word = with(word, 12, funct3);
    let word = with(word, 15, u32::from(rs1.number()));
    let word = with(word, 20, low_bits(5, amount));
    with(word, 25, funct7)
}

fn s_word(opcode: u32, funct3: u32, rs1: X, rs2: X, imm: i32) -> u32
    requires opcode { opcode < 128 }
    requires funct3 { funct3 < 8 }
    ensures { result ≡ s_word_of opcode funct3 rs1 rs2 (low_bits_of 12 imm) }
{
    let imm = low_bits(12, imm);
    let word = with(opcode, 7, field(imm, 4, 0));
    let word = with(word, 12, funct3);
    let word = with(word, 15, u32::from(rs1.number()));
    let word = with(word, 20, u32::from(rs2.number()));
    with(word, 25, field(imm, 11, 5))
}

fn b_word(opcode: u32, funct3: u32, rs1: X, rs2: X, distance: i32) -> u32
    requires opcode { opcode < 128 }
    requires funct3 { funct3 < 8 }
    ensures { result ≡ b_word_of opcode funct3 rs1 rs2 (low_bits_of 13 distance) }
{
    let imm = low_bits(13, distance);
    let word = with(opcode, 7, field(imm, 11, 11));
    let word = with(word, 8, field(imm, 4, 1));
    let word = with(word, 12, funct3);
    let word = with(word, 15, u32::from(rs1.number()));
    let word = with(word, 20, u32::from(rs2.number()));
    let word = with(word, 25, field(imm, 10, 5));
    with(word, 31, field(imm, 12, 12))
}

fn u_word(opcode: u32, rd: X, imm: i32) -> u32
    requires { opcode < 128 }
    ensures { result ≡ u_word_of opcode rd (low_bits_of 20 imm) }
{
    let word = with(opcode, 7, u32::from(rd.number()));
    with(word, 12, low_bits(20, imm))
}

fn j_word(opcode: u32, rd: X, distance: i32) -> u32
    requires { opcode < 128 }
    ensures { result ≡ j_word_of opcode rd (low_bits_of 21 distance) }
{
    let imm = low_bits(21, distance);
    let word = with(opcode, 7, u32::from(rd.number()));
    let word = with(word, 12, field(imm, 19, 12));
    let word = with(word, 20, field(imm, 11, 11));
    let word = with(word, 21, field(imm, 10, 1));
    with(word, 31, field(imm, 20, 20))
}
