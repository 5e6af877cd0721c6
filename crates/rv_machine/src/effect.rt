ghost use Rattle.std.specs.Prelude.{◌≡◌};
ghost use Rattle.rv_isa.specs.Isa.{x as reads, effect};
ghost use Rattle.rv_machine.specs.Effects.{effect_of};
ghost use Rattle.rv_machine.specs.Bytes.{held};

use crate::arithmetic::{
    is_less, is_less_unsigned, offset, product, quotient, quotient_unsigned, remainder,
    remainder_unsigned, shift_left, shift_right, shift_right_arithmetic, signed, upper_immediate,
    upper_product, upper_product_mixed, upper_product_unsigned, word,
};
use crate::bytes::Size;
use crate::registers::Registers;
use rv_isa::{Rv, X};

/// How a loaded number becomes a word: with zeros above it, or with copies of its sign.
#[derive(Clone, Copy)]
pub enum Extension {
    Zero,
    Sign,
}

/// What an instruction does, where its registers have been read.
#[derive(Clone, Copy)]
pub enum Effect {
    /// A register is written.
    Sets(X, u32),
    /// The next instruction's address is written to a register, and the machine goes on at the target.
    Jumps(X, u32),
    /// The machine goes on at the target, if the test is true.
    Branches(bool, u32),
    /// A number is loaded from an address into a register.
    Loads(X, u32, Size, Extension),
    /// The low bytes of a word are stored at an address.
    Stores(u32, Size, u32),
    /// Nothing but the next instruction.
    Continues,
    /// The environment is called.
    Calls,
    /// The machine stops.
    Breaks,
}

/// The effect of an instruction at this place (RISC-V Unprivileged ISA, "RV32I Base Integer Instruction
/// Set" and "M Standard Extension for Integer Multiplication and Division").
pub fn effect_of(pc: u32, x: &Registers, instruction: Rv) -> Effect
    ensures { effect_of result ≡ effect pc (reads (held x.now)) instruction }
{
    match instruction {
        Rv::Lui(rd, imm) => Effect::Sets(rd, upper_immediate(imm)),
        Rv::Auipc(rd, imm) => Effect::Sets(rd, pc.wrapping_add(upper_immediate(imm))),
        Rv::Jal(rd, distance) => Effect::Jumps(rd, offset(pc, distance)),
        Rv::Jalr(rd, rs1, imm) => Effect::Jumps(rd, offset(x.read(rs1), imm) / 2 * 2),
        Rv::Beq(rs1, rs2, distance) => Effect::Branches(
            x.read(rs1) == x.read(rs2),
            offset(pc, distance),
        ),
        Rv::Bne(rs1, rs2, distance) => Effect::Branches(
            x.read(rs1) != x.read(rs2),
            offset(pc, distance),
        ),
        Rv::Blt(rs1, rs2, distance) => Effect::Branches(
            signed(x.read(rs1)) < signed(x.read(rs2)),
            offset(pc, distance),
        ),
        Rv::Bge(rs1, rs2, distance) => Effect::Branches(
            signed(x.read(rs1)) >= signed(x.read(rs2)),
            offset(pc, distance),
        ),
        Rv::Bltu(rs1, rs2, distance) => Effect::Branches(
            x.read(rs1) < x.read(rs2),
            offset(pc, distance),
        ),
        Rv::Bgeu(rs1, rs2, distance) => Effect::Branches(
            x.read(rs1) >= x.read(rs2),
            offset(pc, distance),
        ),
        Rv::Lb(rd, rs1, imm) => Effect::Loads(
            rd,
            offset(x.read(rs1), imm),
            Size::Byte,
            Extension::Sign,
        ),
        Rv::Lh(rd, rs1, imm) => Effect::Loads(
            rd,
            offset(x.read(rs1), imm),
            Size::Half,
            Extension::Sign,
        ),
        Rv::Lw(rd, rs1, imm) => Effect::Loads(
            rd,
            offset(x.read(rs1), imm),
            Size::Word,
            Extension::Zero,
        ),
        Rv::Lbu(rd, rs1, imm) => Effect::Loads(
            rd,
            offset(x.read(rs1), imm),
            Size::Byte,
            Extension::Zero,
        ),
        Rv::Lhu(rd, rs1, imm) => Effect::Loads(
            rd,
            offset(x.read(rs1), imm),
            Size::Half,
            Extension::Zero,
        ),
        Rv::Sb(rs1, rs2, imm) => Effect::Stores(offset(x.read(rs1), imm), Size::Byte, x.read(rs2)),
        Rv::Sh(rs1, rs2, imm) => Effect::Stores(offset(x.read(rs1), imm), Size::Half, x.read(rs2)),
        Rv::Sw(rs1, rs2, imm) => Effect::Stores(offset(x.read(rs1), imm), Size::Word, x.read(rs2)),
        Rv::Addi(rd, rs1, imm) => Effect::Sets(rd, offset(x.read(rs1), imm)),
        Rv::Slti(rd, rs1, imm) => Effect::Sets(rd, is_less(x.read(rs1), word(imm))),
        Rv::Sltiu(rd, rs1, imm) => Effect::Sets(rd, is_less_unsigned(x.read(rs1), word(imm))),
        Rv::Xori(rd, rs1, imm) => Effect::Sets(rd, x.read(rs1) ^ word(imm)),
        Rv::Ori(rd, rs1, imm) => Effect::Sets(rd, x.read(rs1) | word(imm)),
        Rv::Andi(rd, rs1, imm) => Effect::Sets(rd, x.read(rs1) & word(imm)),
        Rv::Slli(rd, rs1, imm) => Effect::Sets(rd, shift_left(x.read(rs1), word(imm))),
        Rv::Srli(rd, rs1, imm) => Effect::Sets(rd, shift_right(x.read(rs1), word(imm))),
        Rv::Srai(rd, rs1, imm) => Effect::Sets(rd, shift_right_arithmetic(x.read(rs1), word(imm))),
        Rv::Add(rd, rs1, rs2) => Effect::Sets(rd, x.read(rs1).wrapping_add(x.read(rs2))),
        Rv::Sub(rd, rs1, rs2) => Effect::Sets(rd, x.read(rs1).wrapping_sub(x.read(rs2))),
        Rv::Sll(rd, rs1, rs2) => Effect::Sets(rd, shift_left(x.read(rs1), x.read(rs2))),
        Rv::Slt(rd, rs1, rs2) => Effect::Sets(rd, is_less(x.read(rs1), x.read(rs2))),
        Rv::Sltu(rd, rs1, rs2) => Effect::Sets(rd, is_less_unsigned(x.read(rs1), x.read(rs2))),
        Rv::Xor(rd, rs1, rs2) => Effect::Sets(rd, x.read(rs1) ^ x.read(rs2)),
        Rv::Srl(rd, rs1, rs2) => Effect::Sets(rd, shift_right(x.read(rs1), x.read(rs2))),
        Rv::Sra(rd, rs1, rs2) => Effect::Sets(rd, shift_right_arithmetic(x.read(rs1), x.read(rs2))),
        Rv::Or(rd, rs1, rs2) => Effect::Sets(rd, x.read(rs1) | x.read(rs2)),
        Rv::And(rd, rs1, rs2) => Effect::Sets(rd, x.read(rs1) & x.read(rs2)),
        Rv::Mul(rd, rs1, rs2) => Effect::Sets(rd, product(x.read(rs1), x.read(rs2))),
        Rv::Mulh(rd, rs1, rs2) => Effect::Sets(rd, upper_product(x.read(rs1), x.read(rs2))),
        Rv::Mulhsu(rd, rs1, rs2) => Effect::Sets(rd, upper_product_mixed(x.read(rs1), x.read(rs2))),
        Rv::Mulhu(rd, rs1, rs2) => Effect::Sets(
            rd,
            upper_product_unsigned(x.read(rs1), x.read(rs2)),
        ),
        Rv::Div(rd, rs1, rs2) => Effect::Sets(rd, quotient(x.read(rs1), x.read(rs2))),
        Rv::Divu(rd, rs1, rs2) => Effect::Sets(rd, quotient_unsigned(x.read(rs1), x.read(rs2))),
        Rv::Rem(rd, rs1, rs2) => Effect::Sets(rd, remainder(x.read(rs1), x.read(rs2))),
        Rv::Remu(rd, rs1, rs2) => Effect::Sets(rd, remainder_unsigned(x.read(rs1), x.read(rs2))),
        Rv::Fence(_, _, _) => Effect::Continues,
        Rv::Ecall => Effect::Calls,
        Rv::Ebreak => Effect::Breaks,
    }
}
