ghost use Rattle.std.specs.Prelude.{◌≡◌};
ghost use Rattle.ir_core.specs.Opcodes.{bin_text, order_text, cast_text, bin_words, order_words, cast_words, named};

use crate::flat::{BinOp, CastOp, Cmp};

/// All binary operations.
pub const BIN_OPS: [BinOp; 13] = [
    BinOp::Add,
    BinOp::Sub,
    BinOp::Mul,
    BinOp::Udiv,
    BinOp::Sdiv,
    BinOp::Urem,
    BinOp::Srem,
    BinOp::Shl,
    BinOp::Lshr,
    BinOp::Ashr,
    BinOp::And,
    BinOp::Or,
    BinOp::Xor,
];

/// All conditions of `icmp`.
pub const CMPS: [Cmp; 10] = [
    Cmp::Eq,
    Cmp::Ne,
    Cmp::Ugt,
    Cmp::Uge,
    Cmp::Ult,
    Cmp::Ule,
    Cmp::Sgt,
    Cmp::Sge,
    Cmp::Slt,
    Cmp::Sle,
];

/// All conversions between integers.
pub const CAST_OPS: [CastOp; 3] = [CastOp::Zext, CastOp::Sext, CastOp::Trunc];

impl BinOp {
    /// Its word in a text.
    pub fn text(self) -> &'static str
        ensures { result.now ≡ bin_text self }
    {
        match self {
            BinOp::Add => "add",
            BinOp::Sub => "sub",
            BinOp::Mul => "mul",
            BinOp::Udiv => "udiv",
            BinOp::Sdiv => "sdiv",
            BinOp::Urem => "urem",
            BinOp::Srem => "srem",
            BinOp::Shl => "shl",
            BinOp::Lshr => "lshr",
            BinOp::Ashr => "ashr",
            BinOp::And => "and",
            BinOp::Or => "or",
            BinOp::Xor => "xor",
        }
    }

    /// The operation that has this word.
    pub fn from_text(word: &[u8]) -> Option<BinOp>
        ensures { result ≡ named bin_words word.now }
    {
        for op in &BIN_OPS {
            if word == op.text().as_bytes() {
                return Some(*op);
            }
        }
        None
    }
}

impl Cmp {
    /// Its word in a text.
    pub fn text(self) -> &'static str
        ensures { result.now ≡ order_text self }
    {
        match self {
            Cmp::Eq => "eq",
            Cmp::Ne => "ne",
            Cmp::Ugt => "ugt",
            Cmp::Uge => "uge",
            Cmp::Ult => "ult",
            Cmp::Ule => "ule",
            Cmp::Sgt => "sgt",
            Cmp::Sge => "sge",
            Cmp::Slt => "slt",
            Cmp::Sle => "sle",
        }
    }

    /// The condition that has this word.
    pub fn from_text(word: &[u8]) -> Option<Cmp>
        ensures { result ≡ named order_words word.now }
    {
        for cmp in &CMPS {
            if word == cmp.text().as_bytes() {
                return Some(*cmp);
            }
        }
        None
    }
}

impl CastOp {
    /// Its word in a text.
    pub fn text(self) -> &'static str
        ensures { result.now ≡ cast_text self }
    {
        match self {
            CastOp::Zext => "zext",
            CastOp::Sext => "sext",
            CastOp::Trunc => "trunc",
        }
    }

    /// The conversion that has this word.
    pub fn from_text(word: &[u8]) -> Option<CastOp>
        ensures { result ≡ named cast_words word.now }
    {
        for op in &CAST_OPS {
            if word == op.text().as_bytes() {
                return Some(*op);
            }
        }
        None
    }
}
