ghost use Rattle.std.specs.Prelude.{◌≡◌};
ghost use Rattle.ir_core.specs.Types.{is_integer, is_bit, is_word, is_pointer, is_scalar};

use oi_base::{Boxed, Items, Place, Width};

/// A type name: its position in the module's list of type names.
#[derive(Clone, Copy, Debug, PartialEq, Eq)]
pub struct TypeName(pub u32);

/// A type (LangRef, "Type System"). `Void` stands for what is no value; an array has its length and its
/// element's type, and a struct its fields' types.
#[derive(Drop)]
pub enum IrType {
    Void,
    Int(Width),
    Ptr,
    Array(u32, Boxed<IrType>),
    Struct(Items<IrType>),
    Named(TypeName),
}

impl IrType {
    /// Whether it is an integer type.
    pub fn is_integer(&self) -> bool
        ensures { result ≡ is_integer self.now }
    {
        matches!(self, IrType::Int(_))
    }

    /// Whether it is `i1`.
    pub fn is_bit(&self) -> bool
        ensures { result ≡ is_bit self.now }
    {
        matches!(self, IrType::Int(Width::W1))
    }

    /// Whether it is `i32`.
    pub fn is_word(&self) -> bool
        ensures { result ≡ is_word self.now }
    {
        matches!(self, IrType::Int(Width::W32))
    }

    /// Whether it is `ptr`.
    pub fn is_pointer(&self) -> bool
        ensures { result ≡ is_pointer self.now }
    {
        matches!(self, IrType::Ptr)
    }

    /// Whether it is an integer type or `ptr`.
    pub fn is_scalar(&self) -> bool
        ensures { result ≡ is_scalar self.now }
    {
        matches!(self, IrType::Int(_) | IrType::Ptr)
    }
}

pub type Types = Items<IrType>;

/// The definition of a type name.
#[derive(Drop)]
pub struct TypeDef {
    pub place: Place,
    pub name: TypeName,
    pub ty: IrType,
}
