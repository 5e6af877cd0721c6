ghost use Rattle.std.specs.Prelude.{◌≡◌, ◌<◌};

use std::marker::Model;

/// An integer register of RV32I, `x0` to `x31`. Contracts see it as its number.
#[derive(Clone, Copy, Debug, PartialEq, Eq)]
pub struct X(u8);

impl Model for X {
    ghost use Rattle.std.specs.Prelude.{ℕ, ◌<◌};

    ghost Value = { ℕ };

    ghost view = { λ x. x.0 };

    ghost invariant = { λ x. x.0 < 32 };

    ghost inverse = { λ n. record { 0 = n } };
}

impl X {
    /// `zero`, which reads 0 and keeps nothing.
    pub const ZERO: X = X(0);

    /// `ra`, the return address.
    pub const RA: X = X(1);

    /// `sp`, the stack pointer.
    pub const SP: X = X(2);

    /// The temporaries `t0` to `t2`.
    pub const T0: X = X(5);

    pub const T1: X = X(6);

    pub const T2: X = X(7);

    /// The arguments `a0` to `a7`; results are in `a0`.
    pub const A0: X = X(10);

    pub const A1: X = X(11);

    pub const A2: X = X(12);

    pub const A3: X = X(13);

    pub const A4: X = X(14);

    pub const A5: X = X(15);

    pub const A6: X = X(16);

    pub const A7: X = X(17);

    /// The register of this number.
    pub const fn new(number: u8) -> X
        requires { number < 32 }
        ensures { result ≡ number }
    {
        X(number)
    }

    /// The register's number.
    pub fn number(self) -> u8
        ensures number { result ≡ self }
        ensures below { result < 32 }
    {
        self.0
    }
}

/// One instruction of RV32IM: rd, rs1, rs2 and the immediate, in this order, each where its format has
/// it. So a store has its base and then its source, and a branch the two registers that it compares.
///
/// An immediate is the signed number of the format's bits: 12 bits in I and S; in B and J the distance to
/// the target in bytes, which is even, of 13 and 21 bits; in U the upper 20 bits, not shifted. The
/// immediate of a shift is its distance, 0 to 31. That of `Fence` is its fm, predecessor and successor.
#[derive(Clone, Copy, Debug, PartialEq, Eq)]
pub enum Rv {
    Lui(X, i32),
    Auipc(X, i32),
    Jal(X, i32),
    Jalr(X, X, i32),
    Beq(X, X, i32),
    Bne(X, X, i32),
    Blt(X, X, i32),
    Bge(X, X, i32),
    Bltu(X, X, i32),
    Bgeu(X, X, i32),
    Lb(X, X, i32),
    Lh(X, X, i32),
    Lw(X, X, i32),
    Lbu(X, X, i32),
    Lhu(X, X, i32),
    Sb(X, X, i32),
    Sh(X, X, i32),
    Sw(X, X, i32),
    Addi(X, X, i32),
    Slti(X, X, i32),
    Sltiu(X, X, i32),
    Xori(X, X, i32),
    Ori(X, X, i32),
    Andi(X, X, i32),
    Slli(X, X, i32),
    Srli(X, X, i32),
    Srai(X, X, i32),
    Add(X, X, X),
    Sub(X, X, X),
    Sll(X, X, X),
    Slt(X, X, X),
    Sltu(X, X, X),
    Xor(X, X, X),
    Srl(X, X, X),
    Sra(X, X, X),
    Or(X, X, X),
    And(X, X, X),
    Mul(X, X, X),
    Mulh(X, X, X),
    Mulhsu(X, X, X),
    Mulhu(X, X, X),
    Div(X, X, X),
    Divu(X, X, X),
    Rem(X, X, X),
    Remu(X, X, X),
    Fence(X, X, i32),
    Ecall,
    Ebreak,
}
