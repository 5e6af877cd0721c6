ghost use Rattle.std.specs.Prelude.{◌≡◌};
ghost use Rattle.ir_core.specs.Opcodes.{width_text};
ghost use Rattle.ir_printer.specs.Words.{word_text};

use ir_core::{BinOp, CastOp, Cmp};
use oi_base::Width;

/// A word of a printed text.
#[derive(Clone, Copy, Drop)]
pub enum Word {
    Align,
    Alloca,
    Bin(BinOp),
    Br,
    Call,
    Cast(CastOp),
    Constant,
    DataLayout,
    Declare,
    Define,
    False,
    GetElementPtr,
    Global,
    Icmp,
    Int(Width),
    Internal,
    Label,
    Load,
    NoInline,
    Null,
    Order(Cmp),
    Phi,
    Poison,
    Ptr,
    Ret,
    Select,
    Store,
    Switch,
    Target,
    To,
    Triple,
    True,
    Type,
    Undef,
    Unreachable,
    Void,
    X,
    ZeroInitializer,
}

impl Word {
    pub fn text(self) -> &'static str
        ensures { result.now ≡ word_text self }
    {
        match self {
            Word::Align => "align",
            Word::Alloca => "alloca",
            Word::Bin(op) => op.text(),
            Word::Br => "br",
            Word::Call => "call",
            Word::Cast(op) => op.text(),
            Word::Constant => "constant",
            Word::DataLayout => "datalayout",
            Word::Declare => "declare",
            Word::Define => "define",
            Word::False => "false",
            Word::GetElementPtr => "getelementptr",
            Word::Global => "global",
            Word::Icmp => "icmp",
            Word::Int(width) => width_text(width),
            Word::Internal => "internal",
            Word::Label => "label",
            Word::Load => "load",
            Word::NoInline => "noinline",
            Word::Null => "null",
            Word::Order(order) => order.text(),
            Word::Phi => "phi",
            Word::Poison => "poison",
            Word::Ptr => "ptr",
            Word::Ret => "ret",
            Word::Select => "select",
            Word::Store => "store",
            Word::Switch => "switch",
            Word::Target => "target",
            Word::To => "to",
            Word::Triple => "triple",
            Word::True => "true",
            Word::Type => "type",
            Word::Undef => "undef",
            Word::Unreachable => "unreachable",
            Word::Void => "void",
            Word::X => "x",
            Word::ZeroInitializer => "zeroinitializer",
        }
    }
}

fn width_text(width: Width) -> &'static str
    ensures { result.now ≡ width_text width }
{
    match width {
        Width::W1 => "i1",
        Width::W8 => "i8",
        Width::W16 => "i16",
        Width::W32 => "i32",
    }
}
