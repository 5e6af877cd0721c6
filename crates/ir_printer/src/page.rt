ghost use Rattle.std.specs.Prelude.{◌≡◌, ◌++◌, ◌∷◌, List, OnOk};
ghost use Rattle.ir_printer.specs.declared.order.Kind.{Kind as AnyKind};
ghost use Rattle.ir_printer.specs.declared.order.Kind.TheVariants as kinds_of;
ghost use Rattle.ir_printer.specs.Printed.{TargetLine, DefinedType, Variable, Definition, Declared, all_of, is_apart, blank_line, placed};
ghost use Rattle.ir_printer.specs.Pages.{empty_page, with_lines, with_entity, all_text};

use crate::marks::{Mark, Sheet};
use crate::order::Kind;
use crate::spelling::{Names, name_at, push_byte, push_marks};
use crate::words::Word;
use ir_core::{Declaration, Func, GlobalVar, Module, TypeDef};
use oi_base::{NoMemory, Text};
use std::alloc::Global;
use std::marker::Model;

/// The text of a module so far, and the kind of the entity at its end.
#[derive(Drop)]
pub struct Page<'a> {
    alloc: Global,
    symbols: &'a [Text],
    types: &'a [Text],
    before: Option<Kind>,
    text: Vec<u8>,
}

impl<'a> Model for Page<'a> {
    ghost use Rattle.ir_printer.specs.Pages.{Written};

    ghost Value = { Written };

    ghost view = { λ p. record { symbols = p.symbols.now; types = p.types.now; before = p.before; text = p.text.items } };
}

/// The entities of a module that are not printed yet. Contracts see their lists.
#[derive(Drop)]
pub struct Unplaced<'a> {
    types: &'a [TypeDef],
    globals: &'a [GlobalVar],
    funcs: &'a [Func],
    declared: &'a [Declaration],
}

impl<'a> Model for Unplaced<'a> {
    ghost use Rattle.std.specs.Coded.{codes};
    ghost use Rattle.ir_core.specs.contracts.ty.TypeDef as type_def;
    ghost use Rattle.ir_core.specs.contracts.module.GlobalVar as global_var;
    ghost use Rattle.ir_core.specs.contracts.module.Declaration as declaration;
    ghost use Rattle.ir_core.specs.contracts.func.Func as func;
    ghost use Rattle.ir_printer.specs.Printed.{Left};

    ghost Value = { Left };

    ghost coded = { Prim.hlevel (codes, type_def.the_row.coded, global_var.the_row.coded, declaration.the_row.coded, func.the_row.coded) };

    ghost view = { λ u. record { types = u.types.now; globals = u.globals.now; funcs = u.funcs.now; declared = u.declared.now } };
}

impl<'a> Unplaced<'a> {
    pub fn all(m: &'a Module) -> Unplaced<'a>
        ensures { result ≡ all_of m.now }
    {
        Unplaced {
            types: m.types.defs.as_slice(),
            globals: m.globals.as_slice(),
            funcs: m.funcs.as_slice(),
            declared: m.declared.as_slice(),
        }
    }
}

impl<'a> Page<'a> {
    pub fn new(alloc: Global, m: &'a Module) -> Page<'a>
        ensures { result ≡ empty_page m.now }
    {
        Page {
            alloc,
            symbols: m.symbols.as_slice(),
            types: m.types.names.as_slice(),
            before: None,
            text: Vec::new(alloc),
        }
    }

    pub fn into_text(self) -> Vec<u8>
        ensures { result.items ≡ self.entry.text }
    {
        self.text
    }

    /// Puts the lines of these marks after the text.
    fn lines(&mut self, kind: Kind, locals: &[Text], marks: &[Mark]) -> Result<(), NoMemory>
        ensures { OnOk result (self.new ≡ with_lines self.old kind locals.now marks.now) }
    {
        let names = Names {
            symbols: self.symbols,
            types: self.types,
            locals,
        };
        push_blank_line(&mut self.text, self.before, kind)?;
        push_marks(self.alloc, &mut self.text, &names, marks)?;
        push_byte(&mut self.text, b'\n')?;
        self.before = Some(kind);
        Ok(())
    }

    /// A line that says the layout or the triple.
    pub fn target_line(&mut self, word: Word, said: &[u8]) -> Result<(), NoMemory>
        ensures { OnOk result (self.new ≡ with_entity self.old (TargetLine word said.now)) }
    {
        let mut sheet = Sheet::new(self.alloc);
        sheet.target_line(word, said)?;
        self.lines(Kind::Target, &[], sheet.as_slice())
    }

    fn type_def(&mut self, d: &TypeDef) -> Result<(), NoMemory>
        ensures { OnOk result (self.new ≡ with_entity self.old (DefinedType d.now)) }
    {
        let mut sheet = Sheet::new(self.alloc);
        sheet.type_def(d)?;
        self.lines(Kind::Type, &[], sheet.as_slice())
    }

    fn global(&mut self, g: &GlobalVar) -> Result<(), NoMemory>
        ensures { OnOk result (self.new ≡ with_entity self.old (Variable g.now)) }
    {
        let mut sheet = Sheet::new(self.alloc);
        sheet.global(g)?;
        self.lines(Kind::Global, &[], sheet.as_slice())
    }

    fn func(&mut self, f: &Func) -> Result<(), NoMemory>
        ensures { OnOk result (self.new ≡ with_entity self.old (Definition f.now)) }
    {
        let mut sheet = Sheet::new(self.alloc);
        sheet.func(f)?;
        self.lines(Kind::Func, f.locals.as_slice(), sheet.as_slice())
    }

    fn declaration(&mut self, d: &Declaration) -> Result<(), NoMemory>
        ensures { OnOk result (self.new ≡ with_entity self.old (Declared d.now)) }
    {
        let mut sheet = Sheet::new(self.alloc);
        sheet.declaration(name_at(self.symbols, d.name.0), d)?;
        self.lines(Kind::Declared, &[], sheet.as_slice())
    }

    /// Prints the next entity of a kind.
    pub fn place(&mut self, kind: Kind, left: &mut Unplaced<'_>) -> Result<(), NoMemory>
        ensures { OnOk result ((kinds : List AnyKind) → all_text self.new (placed kinds left.new) ≡ all_text self.old (placed (kind ∷ kinds) left.old)) }
    {
        match kind {
            Kind::Target => Ok(()),
            Kind::Type => self.next_type(left),
            Kind::Global => self.next_global(left),
            Kind::Func => self.next_func(left),
            Kind::Declared => self.next_declaration(left),
        }
    }

    fn next_type(&mut self, left: &mut Unplaced<'_>) -> Result<(), NoMemory>
        ensures { OnOk result ((kinds : List AnyKind) → all_text self.new (placed kinds left.new) ≡ all_text self.old (placed (kinds_of.Type ∷ kinds) left.old)) }
    {
        match left.types {
            [] => Ok(()),
            [first, more @ ..] => {
                left.types = more;
                self.type_def(first)
            }
        }
    }

    fn next_global(&mut self, left: &mut Unplaced<'_>) -> Result<(), NoMemory>
        ensures { OnOk result ((kinds : List AnyKind) → all_text self.new (placed kinds left.new) ≡ all_text self.old (placed (kinds_of.Global ∷ kinds) left.old)) }
    {
        match left.globals {
            [] => Ok(()),
            [first, more @ ..] => {
                left.globals = more;
                self.global(first)
            }
        }
    }

    fn next_func(&mut self, left: &mut Unplaced<'_>) -> Result<(), NoMemory>
        ensures { OnOk result ((kinds : List AnyKind) → all_text self.new (placed kinds left.new) ≡ all_text self.old (placed (kinds_of.Func ∷ kinds) left.old)) }
    {
        match left.funcs {
            [] => Ok(()),
            [first, more @ ..] => {
                left.funcs = more;
                self.func(first)
            }
        }
    }

    fn next_declaration(&mut self, left: &mut Unplaced<'_>) -> Result<(), NoMemory>
        ensures { OnOk result ((kinds : List AnyKind) → all_text self.new (placed kinds left.new) ≡ all_text self.old (placed (kinds_of.Declared ∷ kinds) left.old)) }
    {
        match left.declared {
            [] => Ok(()),
            [first, more @ ..] => {
                left.declared = more;
                self.declaration(first)
            }
        }
    }
}

/// Whether a blank line stands before an entity of this kind.
fn is_apart(before: Option<Kind>, kind: Kind) -> bool
    ensures { result ≡ is_apart before kind }
{
    match (before, kind) {
        (None, _) => false,
        (Some(_), Kind::Func) => true,
        (Some(Kind::Target), Kind::Target) => false,
        (Some(Kind::Type), Kind::Type) => false,
        (Some(Kind::Global), Kind::Global) => false,
        (Some(Kind::Declared), Kind::Declared) => false,
        _ => true,
    }
}

fn push_blank_line(text: &mut Vec<u8>, before: Option<Kind>, kind: Kind) -> Result<(), NoMemory>
    ensures { OnOk result (text.new.items ≡ text.old.items ++ blank_line before kind) }
{
    if is_apart(before, kind) {
        return push_byte(text, b'\n');
    }
    Ok(())
}
