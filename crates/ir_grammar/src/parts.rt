use ir_core::{
    Block, Blocks, Declaration, Declared, End, Func, GlobalVar, Globals, Instrs, LocalId, Texts,
    TypeDef,
};
use oi_base::{Items, Place, Text};

/// One attribute, by what it says of a definition that has it.
#[derive(Drop)]
pub enum Attribute {
    /// `internal` or `private`.
    Internal,
    /// `noinline`.
    NoInline,
    /// The group of this name.
    Group(Text),
    Other,
}

/// What the attributes of a definition say so far.
#[derive(Drop)]
pub struct Marks {
    pub internal: bool,
    pub noinline: bool,
    pub groups: Texts,
}

/// A definition, and the groups that are named after its parameters: it is not inlined where one of them says so.
#[derive(Drop)]
pub struct Definition {
    pub func: Func,
    pub groups: Texts,
}

pub type Definitions = Items<Definition>;

/// The parts of a block. It is `bare` where it ends in `ret void`, after which a value may stand.
#[derive(Drop)]
pub struct Lines {
    pub label: LocalId,
    pub code: Instrs,
    pub end: End,
    pub end_place: Place,
    pub bare: bool,
}

/// The blocks of a body so far. The last of them may wait for the value of its `ret void`.
#[derive(Drop)]
pub struct Progress {
    pub done: Blocks,
    pub waits: Option<Block>,
}

/// One entity of a module.
#[derive(Drop)]
pub enum Entity {
    /// It says nothing of the module.
    Nothing,
    Layout(Text),
    Triple(Text),
    /// A group of attributes that has the word `noinline`.
    NoInline(Text),
    Type(TypeDef),
    Global(GlobalVar),
    Define(Definition),
    Declare(Declaration),
}

/// The entities of a module so far.
#[derive(Drop)]
pub struct Draft {
    pub layout: Option<Text>,
    pub triple: Option<Text>,
    /// The groups of attributes that have the word `noinline`.
    pub noinline: Texts,
    pub types: Items<TypeDef>,
    pub globals: Globals,
    pub definitions: Definitions,
    pub declared: Declared,
    /// The last entity is a declaration, after which attributes and notes may stand.
    pub declares: bool,
}

/// What stands before an argument's value: an integer after a word is the word's, or the value.
#[derive(Clone, Copy)]
pub enum Stand {
    Free,
    /// A word without argument.
    AfterWord,
    /// A word and an integer.
    AfterInt(i128),
}
