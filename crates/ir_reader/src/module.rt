ghost use Rattle.std.specs.Prelude.{◌≡◌, ◌++◌, IfOk};
ghost use Rattle.ir_grammar.specs.Sets.{head_in};
ghost use Rattle.ir_grammar.specs.declared.kinds.Kind.TheVariants as kinds;
ghost use Rattle.ir_grammar.specs.Tokens.{stated, kind as kind_set, sign as sign_set};
ghost use Rattle.ir_grammar.specs.Entities.{other_entity, entity, no_entities, added, function_of, module_of, note_or_metadata, rest_of_note_or_metadata, with_other_entity, with_entity, after_declaration, next_entity, source_word, target_word, attributes_word, define_word, declare_word, other_entity_set, entity_set, next_set, text_end, text_form};
ghost use Rattle.ir_phrases.specs.Gives.{Gives};

use crate::entities::{
    attributes, global_var, metadata, metadata_rest, source_filename, target, type_def,
};
use crate::functions::{declaration, definition};
use crate::noinline::functions_of;
use ir_core::{Declared, Globals, Module, NamedTypes, Texts, TypeDefs};
use ir_grammar::{Barred, Definitions, Draft, Entity, Kind};
use ir_phrases::{ReadFault, Reader};
use oi_base::{Items, NoMemory};
use std::alloc::Global;

/// An entity that begins with no META, after so many definitions.
#[tactic(auto, unfolding(ir_grammar::specs::Entities::other_entity))]
fn other_entity(reader: &mut Reader<'_>, so_many: usize) -> Result<Entity, ReadFault>
    ensures { Gives result reader.new ((other_entity stated so_many).parse reader.old) }
{
    if reader.is_word(b"source_filename") {
        return source_filename(reader);
    }
    if reader.is_word(b"target") {
        return target(reader);
    }
    if reader.is_word(b"attributes") {
        return attributes(reader);
    }
    if reader.is_kind(Kind::Local) {
        return type_def(reader);
    }
    if reader.is_kind(Kind::Global) {
        return global_var(reader);
    }
    if reader.is_word(b"define") {
        return definition(reader, so_many);
    }
    declaration(reader)
}

#[tactic(auto, unfolding(ir_grammar::specs::Entities::entity))]
fn entity(reader: &mut Reader<'_>, so_many: usize) -> Result<Entity, ReadFault>
    ensures { Gives result reader.new ((entity stated so_many).parse reader.old) }
{
    if reader.is_kind(Kind::Meta) {
        return metadata(reader);
    }
    other_entity(reader, so_many)
}

fn no_entities(alloc: Global) -> Draft
    ensures { result ≡ no_entities }
{
    Draft {
        layout: None,
        triple: None,
        noinline: Texts::new(alloc),
        types: Items::new(alloc),
        globals: Globals::new(alloc),
        definitions: Definitions::new(alloc),
        declared: Declared::new(alloc),
        declares: false,
    }
}

/// The entities with one more. Of several `target` lines of one kind the last one counts.
fn added(draft: Draft, entity: Entity) -> Result<Draft, NoMemory>
    ensures { IfOk result (λ d. d ≡ added draft entity) }
{
    let mut draft = draft;
    draft.declares = false;
    match entity {
        Entity::Nothing => {}
        Entity::Layout(said) => draft.layout = Some(said),
        Entity::Triple(said) => draft.triple = Some(said),
        Entity::NoInline(name) => draft.noinline.push(name)?,
        Entity::Type(def) => draft.types.push(def)?,
        Entity::Global(global) => draft.globals.push(global)?,
        Entity::Define(definition) => draft.definitions.push(definition)?,
        Entity::Declare(declaration) => {
            draft.declared.push(declaration)?;
            draft.declares = true;
        }
    }
    Ok(draft)
}

/// After a declaration a META begins a note of it, or with `=` a metadata entity.
#[tactic(auto, unfolding(ir_grammar::specs::Entities::note_or_metadata))]
fn note_or_metadata(reader: &mut Reader<'_>, draft: Draft) -> Result<Draft, ReadFault>
    ensures { Gives result reader.new ((note_or_metadata draft).parse reader.old) }
{
    reader.kind(Kind::Meta)?;
    rest_of_note_or_metadata(reader, draft)
}

fn is_note_rest(reader: &Reader<'_>) -> bool
    ensures { result ≡ head_in (kind_set kinds.Meta ++ sign_set 33) reader.now.tokens }
{
    reader.is_kind(Kind::Meta) || reader.is_sign(b'!')
}

fn rest_of_note_or_metadata(reader: &mut Reader<'_>, draft: Draft) -> Result<Draft, ReadFault>
    ensures { Gives result reader.new ((rest_of_note_or_metadata draft).parse reader.old) }
{
    if is_note_rest(reader) {
        reader.note_rest()?;
        return Ok(draft);
    }
    metadata_rest(reader)?;
    Ok(added(draft, Entity::Nothing)?)
}

/// The entities with the next one, which begins with no META.
fn with_other_entity(reader: &mut Reader<'_>, draft: Draft) -> Result<Draft, ReadFault>
    ensures { Gives result reader.new ((with_other_entity stated draft).parse reader.old) }
{
    let next = other_entity(reader, draft.definitions.len())?;
    Ok(added(draft, next)?)
}

fn with_entity(reader: &mut Reader<'_>, draft: Draft) -> Result<Draft, ReadFault>
    ensures { Gives result reader.new ((with_entity stated draft).parse reader.old) }
{
    let next = entity(reader, draft.definitions.len())?;
    Ok(added(draft, next)?)
}

/// After a declaration: an attribute or a note of it, or the next entity.
#[tactic(auto, unfolding(ir_grammar::specs::Entities::after_declaration))]
fn after_declaration(reader: &mut Reader<'_>, draft: Draft) -> Result<Draft, ReadFault>
    ensures { Gives result reader.new ((after_declaration stated draft).parse reader.old) }
{
    if reader.is_kind(Kind::Meta) {
        return note_or_metadata(reader, draft);
    }
    if reader.is_attribute(Barred::Nothing) {
        reader.attribute(Barred::Nothing)?;
        return Ok(draft);
    }
    with_other_entity(reader, draft)
}

fn next_entity(reader: &mut Reader<'_>, draft: Draft) -> Result<Draft, ReadFault>
    ensures { Gives result reader.new ((next_entity stated draft draft.declares).parse reader.old) }
{
    if draft.declares {
        return after_declaration(reader, draft);
    }
    with_entity(reader, draft)
}

fn is_property(reader: &Reader<'_>) -> bool
    ensures { result ≡ head_in (source_word ++ target_word ++ attributes_word) reader.now.tokens }
{
    reader.is_word(b"source_filename") || reader.is_word(b"target") || reader.is_word(b"attributes")
}

fn is_definition(reader: &Reader<'_>) -> bool
    ensures { result ≡ head_in (kind_set kinds.Local ++ kind_set kinds.Global ++ define_word ++ declare_word) reader.now.tokens }
{
    reader.is_kind(Kind::Local)
        || reader.is_kind(Kind::Global)
        || reader.is_word(b"define")
        || reader.is_word(b"declare")
}

/// Does an entity stand next that begins with no META?
#[tactic(auto, using(crate::proofs::Heads::entity_heads))]
fn is_other_entity(reader: &Reader<'_>) -> bool
    ensures { result ≡ head_in other_entity_set reader.now.tokens }
{
    let property = is_property(reader);
    let definition = is_definition(reader);
    property || definition
}

fn is_entity(reader: &Reader<'_>) -> bool
    ensures { result ≡ head_in entity_set reader.now.tokens }
{
    reader.is_kind(Kind::Meta) || is_other_entity(reader)
}

/// Does an entity stand next or, after a declaration, a part of it?
fn goes_on(reader: &Reader<'_>, declares: bool) -> bool
    ensures { result ≡ head_in (next_set declares) reader.now.tokens }
{
    declares && reader.is_attribute(Barred::Nothing) || is_entity(reader)
}

/// The module of these entities.
fn module_of(reader: &Reader<'_>, draft: Draft) -> Result<Module, NoMemory>
    ensures { IfOk result (λ m. m ≡ module_of draft reader.now.names) }
{
    let alloc = reader.alloc();
    let Draft {
        layout,
        triple,
        noinline,
        types,
        globals,
        definitions,
        declared,
        declares: _,
    } = draft;
    Ok(Module {
        symbols: reader.symbol_names()?,
        types: NamedTypes {
            names: reader.type_names()?,
            defs: TypeDefs::of(alloc, types)?,
        },
        globals,
        funcs: functions_of(alloc, noinline, definitions)?,
        declared,
        layout,
        triple,
    })
}

fn text_end(reader: &mut Reader<'_>, draft: Draft) -> Result<Module, ReadFault>
    ensures { Gives result reader.new ((text_end draft).parse reader.old) }
{
    reader.kind(Kind::End)?;
    Ok(module_of(reader, draft)?)
}

/// { entity } END
#[tactic(auto, unfolding(ir_grammar::specs::Entities::text_form))]
pub fn text_form(reader: &mut Reader<'_>) -> Result<Module, ReadFault>
    ensures { Gives result reader.new ((text_form stated).parse reader.old) }
{
    let mut draft = no_entities(reader.alloc());
    while goes_on(reader, draft.declares) {
        draft = next_entity(reader, draft)?;
    }
    text_end(reader, draft)
}
