use crate::constant::Const;
use crate::defs::TypeDefs;
use crate::func::Funcs;
use crate::ty::IrType;
use oi_base::{Items, Place, Text};

/// A name after `@`: its position in the module's list of symbols.
#[derive(Clone, Copy, Debug, PartialEq, Eq)]
pub struct SymId(pub u32);

pub type Texts = Items<Text>;

/// The type names in order of first appearance, and their definitions in text order.
#[derive(Drop)]
pub struct NamedTypes {
    pub names: Texts,
    pub defs: TypeDefs,
}

/// A global variable (LangRef, "Global Variables"). `internal` is true of the linkages `internal` and `private`.
#[derive(Drop)]
pub struct GlobalVar {
    pub place: Place,
    pub name: SymId,
    pub internal: bool,
    pub constant: bool,
    pub ty: IrType,
    pub init: Const,
    pub align: Option<u32>,
}

pub type Globals = Items<GlobalVar>;

/// A function that the module declares.
#[derive(Drop)]
pub struct Declaration {
    pub place: Place,
    pub name: SymId,
}

pub type Declared = Items<Declaration>;

/// A module (LangRef, "Module Structure"). `symbols` are the names after `@` in order of first appearance;
/// globals, definitions and declarations stand in text order.
#[derive(Drop)]
pub struct Module {
    pub symbols: Texts,
    pub types: NamedTypes,
    pub globals: Globals,
    pub funcs: Funcs,
    pub declared: Declared,
    pub layout: Option<Text>,
    pub triple: Option<Text>,
}
