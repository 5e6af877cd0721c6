ghost use Rattle.std.specs.Prelude.{◌≡◌, ◌↔◌, ◌≢◌, ◌+◌, ◌<◌, ◌≤◌, ℕ, Option, None, true, false, length, vec_len, slice_set, IfOk, IfSome, IfNone, OnOk, IsTrue};
ghost use Rattle.std.specs.Option.{option_copied, option_and_then};
ghost use Rattle.ir_core.specs.declared.layout.Layout.{Layout};
ghost use Rattle.ir_core.specs.declared.ty.TypeName.{TypeName};
ghost use Rattle.ir_core.specs.Sizes.{definition, resolved, name_of, fields, IsLaid};
ghost use Rattle.ir_core.specs.Ends.{AreRight};
ghost use Rattle.ir_core.specs.Known.{name_at, known, HasPositions, HasNoLayouts, IsRight, IsStuck, Describes, unlaid};

use crate::chains::{Chain, chains_of};
use crate::layout::Name;
use crate::sizes::layout_of;
use crate::ty::{IrType, TypeDef, TypeName};
use oi_base::{Items, NoMemory};
use std::alloc::{AllocError, Global};
use std::marker::Model;

/// The definitions of a module's type names, in text order. Contracts see it as the list of them; it keeps a
/// table of the names' layouts and one of the ends of their chains, so that none is worked out twice.
#[derive(Drop)]
pub struct TypeDefs {
    defs: Items<TypeDef>,
    table: Vec<Name>,
    chains: Vec<Chain>,
}

impl Model for TypeDefs {
    ghost use Rattle.std.specs.Prelude.{List};
    ghost use Rattle.ir_core.specs.declared.ty.TypeDef.{TypeDef};
    ghost use Rattle.std.specs.Coded.{coded_list};
    ghost use Rattle.ir_core.specs.contracts.ty.TypeDef as type_def;
    ghost use Rattle.ir_core.specs.Ends.{AreRight};
    ghost use Rattle.ir_core.specs.Known.{Describes};

    ghost Value = { List TypeDef };

    ghost coded = { coded_list type_def.the_row.coded };

    ghost view = { λ s. s.defs };

    ghost invariant = { λ s. Describes s.table.items s.defs × AreRight s.chains.items s.defs };
}

impl TypeDefs {
    /// The list of these definitions. Its time and its room follow the definitions' text.
    pub fn of(alloc: Global, defs: Items<TypeDef>) -> Result<TypeDefs, NoMemory>
        ensures { IfOk result (λ ds. ds ≡ defs) }
    {
        let mut table = positions(alloc, defs.as_slice())?;
        let chains = chains_of(alloc, defs.as_slice(), table.as_slice())?;
        lay_deepest_first(alloc, defs.as_slice(), &mut table)?;
        lay_all(defs.as_slice(), &mut table);
        Ok(TypeDefs {
            defs,
            table,
            chains,
        })
    }

    pub fn as_slice(&self) -> &[TypeDef]
        ensures { result.now ≡ self.now }
    {
        self.defs.as_slice()
    }

    /// What a type name stands for: its first definition.
    pub fn definition(&self, name: TypeName) -> Option<&TypeDef>
        ensures { option_copied result ≡ definition self.now name }
    {
        match self.table.get(name.0 as usize) {
            Some(Name::Defined(at)) | Some(Name::Laid(at, _)) => self.defs.get(*at),
            _ => None,
        }
    }

    /// What a type is without the names that stand for it.
    pub fn resolved<'a>(&'a self, t: &'a IrType) -> &'a IrType
        ensures { result.now ≡ resolved (length self.now) self.now t.now }
    {
        match self.end_of(t) {
            Some(def) => &def.ty,
            None => self.walked(t),
        }
    }

    /// The last definition of the chain that begins with a type, where one is known.
    fn end_of(&self, t: &IrType) -> Option<&TypeDef>
        ensures { IfSome (option_copied result) (λ def. def.ty ≡ resolved (length self.now) self.now t.now) }
    {
        let IrType::Named(name) = t else {
            return None;
        };
        match self.chains().get(name.0 as usize) {
            Some(Chain::Ended(at, _)) => self.defs.get(*at),
            _ => None,
        }
    }

    /// What a type is without the names that stand for it, one name after the other.
    fn walked<'a>(&'a self, t: &'a IrType) -> &'a IrType
        ensures { result.now ≡ resolved (length self.now) self.now t.now }
    {
        let mut stripped = t;
        for _ in 0..self.defs.len() {
            match self.stands_for(stripped) {
                Some(def) => stripped = &def.ty,
                None => return stripped,
            }
        }
        stripped
    }

    /// The types of the fields of the struct that a type stands for.
    pub fn fields<'a>(&'a self, t: &'a IrType) -> &'a [IrType]
        ensures { result.now ≡ fields self.now t.now }
    {
        match self.resolved(t) {
            IrType::Struct(fields) => fields.as_slice(),
            _ => &[],
        }
    }

    /// Whether the type's names are defined, none of them leads back to itself, and no `void` stands in it.
    pub fn has_layout(&self, t: &IrType) -> bool
        ensures { IsTrue result ↔ IsLaid self.now t.now }
    {
        layout_of(self.table(), t).is_some()
    }

    /// The definition of the name that a type is.
    fn stands_for(&self, t: &IrType) -> Option<&TypeDef>
        ensures { option_copied result ≡ option_and_then (definition self.now) (name_of t.now) }
    {
        match t {
            IrType::Named(name) => self.definition(*name),
            _ => None,
        }
    }

    fn chains(&self) -> &[Chain]
        ensures { AreRight result.now self.now }
    {
        self.chains.as_slice()
    }

    pub(crate) fn table(&self) -> &[Name]
        ensures { Describes result.now self.now }
    {
        self.table.as_slice()
    }
}

/// A table with the positions of the definitions.
fn positions(alloc: Global, defs: &[TypeDef]) -> Result<Vec<Name>, AllocError>
    ensures positions { IfOk result (λ table. HasPositions table.items defs.now) }
    ensures no_layouts { IfOk result (λ table. HasNoLayouts table.items) }
{
    let mut table = Vec::new(alloc);
    let mut at = defs.len();
    while at > 0 {
        at -= 1;
        put(&mut table, defs[at].name, Name::Defined(at))?;
    }
    Ok(table)
}

/// Writes what is known of one name.
fn put(table: &mut Vec<Name>, name: TypeName, known: Name) -> Result<(), AllocError>
    ensures same { OnOk result (name_at table.new.items name.0 ≡ known) }
    ensures others { OnOk result ((x : ℕ) → x ≢ name.0 → name_at table.new.items x ≡ name_at table.old.items x) }
{
    let at = name.0 as usize;
    grow(table, at + 1)?;
    table[at] = known;
    Ok(())
}

/// Makes a table at least so long.
fn grow(table: &mut Vec<Name>, len: usize) -> Result<(), AllocError>
    ensures len { OnOk result (len ≤ vec_len table.new) }
    ensures same { OnOk result ((x : ℕ) → name_at table.new.items x ≡ name_at table.old.items x) }
{
    if len <= table.len() {
        return Ok(());
    }
    table.resize(len, Name::Undefined)
}

/// How far the walk through the names has come with one: not there yet, at the names that it leads to, or past it.
#[derive(Clone, Copy, Debug, PartialEq, Eq)]
enum Mark {
    Unseen,
    Open,
    Closed,
}

/// Lays names after those that they lead to. Where no name leads back to itself, these are all that can be laid.
fn lay_deepest_first(
    alloc: Global,
    defs: &[TypeDef],
    table: &mut Vec<Name>,
) -> Result<(), AllocError>
    requires right { IsRight table.old.items defs.now }
    ensures right { IsRight table.new.items defs.now }
{
    let mut marks = Vec::new(alloc);
    marks.resize(table.len(), Mark::Unseen)?;
    let mut stack = Vec::new(alloc);
    for x in 0..table.len() {
        stack.push(x)?;
        lay_reached(defs, table, &mut marks, &mut stack)?;
    }
    Ok(())
}

/// Lays the names of the stack and those that they lead to.
fn lay_reached(
    defs: &[TypeDef],
    table: &mut Vec<Name>,
    marks: &mut Vec<Mark>,
    stack: &mut Vec<usize>,
) -> Result<(), AllocError>
    requires right { IsRight table.old.items defs.now }
    ensures right { IsRight table.new.items defs.now }
    ensures len { vec_len table.new ≡ vec_len table.old }
{
    for _ in 0..u64::MAX {
        let Some(x) = stack.pop() else {
            return Ok(());
        };
        visit(defs, table, marks, stack, x)?;
    }
    Ok(())
}

/// Comes to a name: for the first time, and then the names that it leads to come before it, or after those.
fn visit(
    defs: &[TypeDef],
    table: &mut Vec<Name>,
    marks: &mut Vec<Mark>,
    stack: &mut Vec<usize>,
    x: usize,
) -> Result<(), AllocError>
    requires right { IsRight table.old.items defs.now }
    ensures right { IsRight table.new.items defs.now }
    ensures len { vec_len table.new ≡ vec_len table.old }
{
    let Some(mark) = marks.get_mut(x) else {
        return Ok(());
    };
    match *mark {
        Mark::Unseen => {
            *mark = Mark::Open;
            stack.push(x)?;
            push_names_of(defs, table.as_slice(), marks.as_slice(), stack, x)
        }
        Mark::Open => {
            *mark = Mark::Closed;
            if x < table.len() {
                lay(defs, table, x);
            }
            Ok(())
        }
        Mark::Closed => Ok(()),
    }
}

/// Puts the unseen names in a name's definition on the stack.
fn push_names_of(
    defs: &[TypeDef],
    table: &[Name],
    marks: &[Mark],
    stack: &mut Vec<usize>,
    x: usize,
) -> Result<(), AllocError> {
    let Some(Name::Defined(at)) = table.get(x) else {
        return Ok(());
    };
    match defs.get(*at) {
        Some(def) => push_names(&def.ty, marks, stack),
        None => Ok(()),
    }
}

/// Puts the unseen names in a type on the stack.
#[cycle(names)]
fn push_names(t: &IrType, marks: &[Mark], stack: &mut Vec<usize>) -> Result<(), AllocError> {
    match t {
        IrType::Array(_, item) => push_names(item.get(), marks, stack),
        IrType::Struct(fields) => push_all_names(fields.as_slice(), marks, stack),
        IrType::Named(name) => match marks.get(name.0 as usize) {
            Some(Mark::Unseen) => {
                stack.push(name.0 as usize)?;
                Ok(())
            }
            _ => Ok(()),
        },
        _ => Ok(()),
    }
}

#[cycle(names)]
fn push_all_names(
    types: &[IrType],
    marks: &[Mark],
    stack: &mut Vec<usize>,
) -> Result<(), AllocError> {
    for t in types {
        push_names(t, marks, stack)?;
    }
    Ok(())
}

/// Lays all names that can be laid.
fn lay_all(defs: &[TypeDef], table: &mut Vec<Name>)
    requires right { IsRight table.old.items defs.now }
    ensures { Describes table.new.items defs.now }
{
    let mut changed = true;
    while changed {
        changed = lay_round(defs, table);
    }
}

/// Lays what can be laid with the names that are laid, one after the other; whether there were any.
fn lay_round(defs: &[TypeDef], table: &mut Vec<Name>) -> bool
    requires right { IsRight table.old.items defs.now }
    ensures right { IsRight table.new.items defs.now }
    ensures fewer { IsTrue result → unlaid table.new.items < unlaid table.old.items }
    ensures no_more { result ≡ false → unlaid table.new.items ≤ unlaid table.old.items }
    ensures stuck { result ≡ false → (x : TypeName) → IsStuck table.new.items defs.now x }
{
    let mut changed = false;
    for x in 0..table.len() {
        if lay(defs, table, x) {
            changed = true;
        }
    }
    changed
}

/// Lays one name, if that can be done.
fn lay(defs: &[TypeDef], table: &mut Vec<Name>, x: usize) -> bool
    requires right { IsRight table.old.items defs.now }
    requires within { x < vec_len table.old }
    ensures right { IsRight table.new.items defs.now }
    ensures len { vec_len table.new ≡ vec_len table.old }
    ensures fewer { IsTrue result → unlaid table.new.items < unlaid table.old.items }
    ensures same { result ≡ false → table.new.items ≡ table.old.items }
    ensures stuck { result ≡ false → (name : TypeName) → name.0 ≡ x → IsStuck table.old.items defs.now name }
{
    match laid(defs, table.as_slice(), x) {
        Some(name) => {
            table[x] = name;
            true
        }
        None => false,
    }
}

/// A name with its layout, if it has none in the table and those in the table give it one.
fn laid(defs: &[TypeDef], table: &[Name], x: usize) -> Option<Name>
    requires right { IsRight table.now defs.now }
    requires within { x < length table.now }
    ensures right { IfSome result (λ name. IsRight (slice_set table.now x name) defs.now) }
    ensures fewer { IfSome result (λ name. unlaid (slice_set table.now x name) < unlaid table.now) }
    ensures stuck { IfNone result ((name : TypeName) → name.0 ≡ x → IsStuck table.now defs.now name) }
{
    let Name::Defined(at) = table[x] else {
        return None;
    };
    let def = defs.get(at)?;
    let layout = layout_of(table, &def.ty)?;
    Some(Name::Laid(at, layout))
}
