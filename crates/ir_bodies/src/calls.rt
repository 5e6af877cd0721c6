ghost use Rattle.std.specs.Prelude.{◌≡◌};
ghost use Rattle.ir_grammar.specs.Sets.{head_in};
ghost use Rattle.ir_grammar.specs.Forms.{act, token, choose};
ghost use Rattle.ir_grammar.specs.Tokens.{expect, stated};
ghost use Rattle.ir_grammar.specs.Operations.{tail_word, call_words, call_words_form, call_head, call_end, callee, callee_of, is_lifetime, named_call, result_of, called, lifetime, unnamed_call};
ghost use Rattle.ir_phrases.specs.Gives.{Gives};
ghost use Rattle.ir_bodies.specs.Endings.{call_ended};
ghost use Rattle.ir_bodies.specs.Calls.{call_after_type, call_from_type};

use crate::brackets::arguments;
use crate::lines::Line;
use ir_core::{IrType, LocalId, Op, SymId};
use ir_grammar::{Barred, Kind};
use ir_phrases::{ReadFault, Reader, text};
use oi_base::Text;

fn is_tail(reader: &Reader<'_>) -> bool
    ensures { result ≡ head_in tail_word reader.now.tokens }
{
    reader.is_word(b"tail") || reader.is_word(b"notail")
}

/// Does a call stand next?
pub fn is_call(reader: &Reader<'_>) -> bool
    ensures { result ≡ head_in call_words reader.now.tokens }
{
    reader.is_word(b"tail") || reader.is_word(b"notail") || reader.is_word(b"call")
}

fn tail(reader: &mut Reader<'_>) -> Result<(), ReadFault>
    ensures { Gives result reader.new ((expect tail_word).parse reader.old) }
{
    if !is_tail(reader) {
        return Err(reader.fault());
    }
    reader.pass()
}

fn call_words(reader: &mut Reader<'_>) -> Result<(), ReadFault>
    ensures { Gives result reader.new (call_words_form.parse reader.old) }
{
    if !is_tail(reader) {
        return reader.word(b"call");
    }
    tail(reader)?;
    reader.word(b"call")
}

/// [ `tail` | `notail` ] `call` { attr }
#[tactic(auto, unfolding(ir_grammar::specs::Operations::call_head))]
pub fn call_head(reader: &mut Reader<'_>) -> Result<(), ReadFault>
    ensures { Gives result reader.new (call_head.parse reader.old) }
{
    call_words(reader)?;
    reader.attribute_list(Barred::Values)?;
    Ok(())
}

/// { attr } { `,` note }
#[tactic(auto, unfolding(ir_grammar::specs::Operations::call_end))]
pub fn call_end(reader: &mut Reader<'_>) -> Result<(), ReadFault>
    ensures { Gives result reader.new (call_end.parse reader.old) }
{
    reader.attribute_list(Barred::Code)?;
    reader.notes()
}

/// Passes the end of a call after what was read, and gives it.
fn call_ended<T: Drop>(reader: &mut Reader<'_>, read: T) -> Result<T, ReadFault>
    ensures { Gives result reader.new ((call_ended read).parse reader.old) }
{
    call_end(reader)?;
    Ok(read)
}

/// A GLOBAL that is no function for lifetimes.
#[tactic(auto, unfolding(ir_grammar::specs::Operations::callee))]
fn callee(reader: &mut Reader<'_>) -> Result<SymId, ReadFault>
    ensures { Gives result reader.new (callee.parse reader.old) }
{
    let name = callee_name(reader)?;
    reader.see_symbol(name)
}

fn callee_name(reader: &mut Reader<'_>) -> Result<Text, ReadFault>
    ensures { Gives result reader.new ((token callee_of).parse reader.old) }
{
    let Some(name) = reader.next_global() else {
        return Err(reader.fault());
    };
    if is_lifetime(name) {
        return Err(reader.fault());
    }
    let name = text(reader.alloc(), name)?;
    reader.pass()?;
    Ok(name)
}

/// Is it the name of a function that marks lifetimes?
fn is_lifetime(name: &[u8]) -> bool
    ensures { result ≡ is_lifetime name.now }
{
    name.starts_with(b"llvm.lifetime.")
}

/// A call whose result has a name.
#[tactic(auto, unfolding(ir_grammar::specs::Operations::named_call))]
pub fn named_call(reader: &mut Reader<'_>) -> Result<Op, ReadFault>
    ensures { Gives result reader.new ((named_call stated).parse reader.old) }
{
    call_head(reader)?;
    let ty = reader.value_type()?;
    let callee = callee(reader)?;
    let arguments = arguments(reader)?;
    call_ended(reader, Op::Call(ty, callee, arguments))
}

/// The register of a call's result without a name.
fn result_of(reader: &mut Reader<'_>, ty: &IrType) -> Result<Option<LocalId>, ReadFault>
    ensures { Gives result reader.new ((act (result_of ty.now)).parse reader.old) }
{
    match ty {
        IrType::Void => Ok(None),
        _ => Ok(Some(reader.define_next()?)),
    }
}

/// A call, after its GLOBAL.
#[tactic(auto, unfolding(ir_grammar::specs::Operations::called))]
fn called(reader: &mut Reader<'_>, ty: IrType, name: Text) -> Result<Line, ReadFault>
    ensures { Gives result reader.new ((called stated ty name).parse reader.old) }
{
    let callee = reader.see_symbol(name)?;
    let result = result_of(reader, &ty)?;
    let arguments = arguments(reader)?;
    Ok(Some((result, Op::Call(ty, callee, arguments))))
}

/// A call for lifetimes, after its GLOBAL. It is skipped, and so are the type names of its type.
#[tactic(auto, unfolding(ir_grammar::specs::Operations::lifetime))]
fn lifetime(reader: &mut Reader<'_>, types: usize) -> Result<Line, ReadFault>
    ensures { Gives result reader.new ((lifetime types).parse reader.old) }
{
    reader.group(b'(', b')')?;
    reader.keep_types(types);
    Ok(None)
}

fn call_or_lifetime(
    reader: &mut Reader<'_>,
    types: usize,
    ty: IrType,
    name: Text,
) -> Result<Line, ReadFault>
    ensures { Gives result reader.new ((choose (is_lifetime name) (lifetime types) (called stated ty name)).parse reader.old) }
{
    if is_lifetime(name.as_slice()) {
        return lifetime(reader, types);
    }
    called(reader, ty, name)
}

/// The rest of a call after its type, where so many type names came before.
fn call_after_type(reader: &mut Reader<'_>, types: usize, ty: IrType) -> Result<Line, ReadFault>
    ensures { Gives result reader.new ((call_after_type types ty).parse reader.old) }
{
    let name = reader.text(Kind::Global)?;
    let line = call_or_lifetime(reader, types, ty, name)?;
    call_ended(reader, line)
}

/// The rest of a call after its attributes.
fn call_from_type(reader: &mut Reader<'_>, types: usize) -> Result<Line, ReadFault>
    ensures { Gives result reader.new ((call_from_type types).parse reader.old) }
{
    let ty = reader.type_form()?;
    call_after_type(reader, types, ty)
}

/// A call without a name for its result.
#[tactic(auto, unfolding(ir_grammar::specs::Operations::unnamed_call))]
pub fn unnamed_call(reader: &mut Reader<'_>) -> Result<Line, ReadFault>
    ensures { Gives result reader.new ((unnamed_call stated).parse reader.old) }
{
    call_head(reader)?;
    let types = reader.type_count();
    call_from_type(reader, types)
}
