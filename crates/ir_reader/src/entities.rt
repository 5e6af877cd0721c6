ghost use Rattle.std.specs.Prelude.{◌≡◌, false, None};
ghost use Rattle.ir_grammar.specs.Sets.{head_in};
ghost use Rattle.ir_grammar.specs.Forms.{ret, either};
ghost use Rattle.ir_grammar.specs.Tokens.{expect, words_of, one_word, look, stated};
ghost use Rattle.ir_grammar.specs.Entities.{source_filename, target_words, target, attributes, distinct_word, metadata_rest, metadata, type_def, global_words, one_linkage, linkage, storage_words, align_or_note, one_global_end, global_end, global_var};
ghost use Rattle.ir_phrases.specs.Gives.{Gives, IsVerdict};

use ir_core::{GlobalVar, TypeDef};
use ir_grammar::{Entity, Kind};
use ir_phrases::{ReadFault, Reader};

/// `source_filename` `=` STRING
#[tactic(auto, unfolding(ir_grammar::specs::Entities::source_filename))]
pub fn source_filename(reader: &mut Reader<'_>) -> Result<Entity, ReadFault>
    ensures { Gives result reader.new (source_filename.parse reader.old) }
{
    reader.word(b"source_filename")?;
    reader.sign(b'=')?;
    reader.text(Kind::Str)?;
    Ok(Entity::Nothing)
}

/// Whether a word after `target` is `datalayout`, where it is that or `triple`.
fn target_word(word: &[u8]) -> Option<bool>
    ensures { IsVerdict result (look target_words word.now) }
{
    if word == b"datalayout".as_slice() {
        Some(true)
    } else if word == b"triple".as_slice() {
        Some(false)
    } else {
        None
    }
}

fn is_layout(reader: &mut Reader<'_>) -> Result<bool, ReadFault>
    ensures { Gives result reader.new ((one_word target_words).parse reader.old) }
{
    let Some(word) = reader.next_word() else {
        return Err(reader.fault());
    };
    let Some(found) = target_word(word) else {
        return Err(reader.fault());
    };
    reader.pass()?;
    Ok(found)
}

/// `target` (`datalayout` | `triple`) `=` STRING
#[tactic(auto, unfolding(ir_grammar::specs::Entities::target))]
pub fn target(reader: &mut Reader<'_>) -> Result<Entity, ReadFault>
    ensures { Gives result reader.new (target.parse reader.old) }
{
    reader.word(b"target")?;
    let is_layout = is_layout(reader)?;
    reader.sign(b'=')?;
    let said = reader.text(Kind::Str)?;
    Ok(if is_layout {
        Entity::Layout(said)
    } else {
        Entity::Triple(said)
    })
}

/// `attributes` HASH `=` GROUP
#[tactic(auto, unfolding(ir_grammar::specs::Entities::attributes))]
pub fn attributes(reader: &mut Reader<'_>) -> Result<Entity, ReadFault>
    ensures { Gives result reader.new (attributes.parse reader.old) }
{
    reader.word(b"attributes")?;
    let name = reader.text(Kind::Hash)?;
    reader.sign(b'=')?;
    let noinline = reader.group(b'{', b'}')?;
    Ok(if noinline {
        Entity::NoInline(name)
    } else {
        Entity::Nothing
    })
}

/// [ `distinct` ]
fn distinct(reader: &mut Reader<'_>) -> Result<(), ReadFault>
    ensures { Gives result reader.new ((either distinct_word (expect distinct_word) (ret tt)).parse reader.old) }
{
    if reader.is_word(b"distinct") {
        return reader.word(b"distinct");
    }
    Ok(())
}

/// `=` [ `distinct` ] `!` GROUP
#[tactic(auto, unfolding(ir_grammar::specs::Entities::metadata_rest))]
pub fn metadata_rest(reader: &mut Reader<'_>) -> Result<(), ReadFault>
    ensures { Gives result reader.new (metadata_rest.parse reader.old) }
{
    reader.sign(b'=')?;
    distinct(reader)?;
    reader.node()
}

/// META `=` [ `distinct` ] `!` GROUP
#[tactic(auto, unfolding(ir_grammar::specs::Entities::metadata))]
pub fn metadata(reader: &mut Reader<'_>) -> Result<Entity, ReadFault>
    ensures { Gives result reader.new (metadata.parse reader.old) }
{
    reader.kind(Kind::Meta)?;
    metadata_rest(reader)?;
    Ok(Entity::Nothing)
}

/// LOCAL `=` `type` type
#[tactic(auto, unfolding(ir_grammar::specs::Entities::type_def))]
pub fn type_def(reader: &mut Reader<'_>) -> Result<Entity, ReadFault>
    ensures { Gives result reader.new ((type_def stated).parse reader.old) }
{
    let place = reader.place();
    let text = reader.text(Kind::Local)?;
    let name = reader.see_type(text)?;
    reader.sign(b'=')?;
    reader.word(b"type")?;
    let ty = reader.type_form()?;
    Ok(Entity::Type(TypeDef { place, name, ty }))
}

/// Whether a word of a global makes it internal, where it is one that may stand there.
fn global_word(word: &[u8]) -> Option<bool>
    ensures { IsVerdict result (look global_words word.now) }
{
    if word == b"internal".as_slice() || word == b"private".as_slice() {
        Some(true)
    } else if word == b"dso_local".as_slice()
        || word == b"dso_preemptable".as_slice()
        || word == b"default".as_slice()
        || word == b"hidden".as_slice()
        || word == b"protected".as_slice()
        || word == b"unnamed_addr".as_slice()
        || word == b"local_unnamed_addr".as_slice()
    {
        Some(false)
    } else {
        None
    }
}

fn is_global_word(reader: &Reader<'_>) -> bool
    ensures { result ≡ head_in (words_of global_words) reader.now.tokens }
{
    match reader.next_word() {
        Some(word) => global_word(word).is_some(),
        None => false,
    }
}

fn one_global_word(reader: &mut Reader<'_>) -> Result<bool, ReadFault>
    ensures { Gives result reader.new ((one_word global_words).parse reader.old) }
{
    let Some(word) = reader.next_word() else {
        return Err(reader.fault());
    };
    let Some(found) = global_word(word) else {
        return Err(reader.fault());
    };
    reader.pass()?;
    Ok(found)
}

/// One more word of a global, and whether it is internal with this word.
fn one_more_word(reader: &mut Reader<'_>, internal: bool) -> Result<bool, ReadFault>
    ensures { Gives result reader.new ((one_linkage internal).parse reader.old) }
{
    let next = one_global_word(reader)?;
    Ok(internal || next)
}

/// { gword }
#[tactic(auto, unfolding(ir_grammar::specs::Entities::linkage))]
fn linkage(reader: &mut Reader<'_>) -> Result<bool, ReadFault>
    ensures { Gives result reader.new ((linkage false).parse reader.old) }
{
    let mut internal = false;
    while is_global_word(reader) {
        internal = one_more_word(reader, internal)?;
    }
    Ok(internal)
}

/// Whether a global is a constant, by its word.
fn storage_word(word: &[u8]) -> Option<bool>
    ensures { IsVerdict result (look storage_words word.now) }
{
    if word == b"global".as_slice() {
        Some(false)
    } else if word == b"constant".as_slice() {
        Some(true)
    } else {
        None
    }
}

fn is_constant(reader: &mut Reader<'_>) -> Result<bool, ReadFault>
    ensures { Gives result reader.new ((one_word storage_words).parse reader.old) }
{
    let Some(word) = reader.next_word() else {
        return Err(reader.fault());
    };
    let Some(found) = storage_word(word) else {
        return Err(reader.fault());
    };
    reader.pass()?;
    Ok(found)
}

/// `align` INT, or a note after this `align`.
fn align_or_note(reader: &mut Reader<'_>, align: Option<u32>) -> Result<Option<u32>, ReadFault>
    ensures { Gives result reader.new ((align_or_note stated align).parse reader.old) }
{
    if reader.is_word(b"align") {
        reader.word(b"align")?;
        let n = reader.number()?;
        return Ok(Some(n));
    }
    reader.note()?;
    Ok(align)
}

fn next_global_end(reader: &mut Reader<'_>, align: Option<u32>) -> Result<Option<u32>, ReadFault>
    ensures { Gives result reader.new ((one_global_end stated align).parse reader.old) }
{
    reader.sign(b',')?;
    align_or_note(reader, align)
}

/// { `,` gend }; the last `align` counts.
#[tactic(auto, unfolding(ir_grammar::specs::Entities::global_end))]
fn global_end(reader: &mut Reader<'_>) -> Result<Option<u32>, ReadFault>
    ensures { Gives result reader.new ((global_end stated None).parse reader.old) }
{
    let mut align = None;
    while reader.is_sign(b',') {
        align = next_global_end(reader, align)?;
    }
    Ok(align)
}

/// GLOBAL `=` { gword } (`global` | `constant`) type init { `,` gend }
#[tactic(auto, unfolding(ir_grammar::specs::Entities::global_var))]
pub fn global_var(reader: &mut Reader<'_>) -> Result<Entity, ReadFault>
    ensures { Gives result reader.new ((global_var stated).parse reader.old) }
{
    let place = reader.place();
    let name = reader.global()?;
    reader.sign(b'=')?;
    let internal = linkage(reader)?;
    let constant = is_constant(reader)?;
    let ty = reader.type_form()?;
    let init = reader.init()?;
    let align = global_end(reader)?;
    Ok(Entity::Global(GlobalVar {
        place,
        name,
        internal,
        constant,
        ty,
        init,
        align,
    }))
}
