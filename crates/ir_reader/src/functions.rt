ghost use Rattle.std.specs.Prelude.{◌≡◌};
ghost use Rattle.ir_grammar.specs.Forms.{token};
ghost use Rattle.ir_grammar.specs.Tokens.{expect, skip, stated};
ghost use Rattle.ir_grammar.specs.Entities.{define_of, without_groups, definition, before_name, declaration};
ghost use Rattle.ir_phrases.specs.Gives.{Gives};

use ir_bodies::{body, params};
use ir_core::{Declaration, Func, MOST_FUNCTIONS, Texts};
use ir_grammar::{Barred, Definition, Entity, Marks, Which};
use ir_phrases::{ReadFault, Reader};
use std::alloc::Global;

/// `define`, after so many definitions.
fn define_word(reader: &mut Reader<'_>, so_many: usize) -> Result<(), ReadFault>
    ensures { Gives result reader.new ((token (define_of stated so_many)).parse reader.old) }
{
    if !reader.is_word(b"define") {
        return Err(reader.fault());
    }
    if so_many >= MOST_FUNCTIONS {
        return Err(reader.limit(Which::Functions));
    }
    reader.pass()
}

/// The marks of a definition before its type, where no group counts.
fn without_groups(alloc: Global, marks: Marks) -> Marks
    ensures { result ≡ without_groups marks }
{
    let mut marks = marks;
    marks.groups = Texts::new(alloc);
    marks
}

/// `define` { attr } type GLOBAL `(` [ param { `,` param } ] `)` { attr | note } body
#[tactic(auto, unfolding(ir_grammar::specs::Entities::definition))]
pub fn definition(reader: &mut Reader<'_>, so_many: usize) -> Result<Entity, ReadFault>
    ensures { Gives result reader.new ((definition stated so_many).parse reader.old) }
{
    let place = reader.place();
    define_word(reader, so_many)?;
    reader.forget_locals();
    let before = reader.attribute_list(Barred::Values)?;
    let result = reader.type_form()?;
    let name = reader.global()?;
    let params = params(reader)?;
    let marks = reader.attributes_and_notes(without_groups(reader.alloc(), before))?;
    let blocks = body(reader)?;
    let locals = reader.local_names()?;
    Ok(Entity::Define(Definition {
        func: Func {
            place,
            name,
            internal: marks.internal,
            noinline: marks.noinline,
            result,
            params,
            locals,
            blocks,
        },
        groups: marks.groups,
    }))
}

/// Takes the tokens before the name that a declaration has.
fn before_name(reader: &mut Reader<'_>) -> Result<(), ReadFault>
    ensures { Gives result reader.new ((skip before_name (expect before_name)).parse reader.old) }
{
    while reader.is_before_name() {
        reader.before_name()?;
    }
    Ok(())
}

/// `declare` { any token but GLOBAL } GLOBAL GROUP, but for the attributes and notes after it.
#[tactic(auto, unfolding(ir_grammar::specs::Entities::declaration))]
pub fn declaration(reader: &mut Reader<'_>) -> Result<Entity, ReadFault>
    ensures { Gives result reader.new (declaration.parse reader.old) }
{
    let place = reader.place();
    reader.word(b"declare")?;
    before_name(reader)?;
    let name = reader.global()?;
    reader.group(b'(', b')')?;
    Ok(Entity::Declare(Declaration { place, name }))
}
