ghost use Rattle.std.specs.Prelude.{◌≡◌};
ghost use Rattle.ir_grammar.specs.Sets.{head_in};
ghost use Rattle.ir_grammar.specs.Tokens.{stated};
ghost use Rattle.ir_grammar.specs.Operations.{op, named_line, gep_line, other_op_line, store_line, other_line_set, other_line, line_set, line, instr_at, instr};
ghost use Rattle.ir_phrases.specs.Gives.{Gives};

use crate::calls::{is_call, named_call, unnamed_call};
use crate::geps::gep_op;
use crate::operations::{is_other_op, other_op, store};
use ir_core::{Instr, LocalId, Op};
use ir_grammar::Kind;
use ir_phrases::{ReadFault, Reader};
use oi_base::Place;

/// An instruction but for its place, or nothing where it is skipped.
pub type Line = Option<(Option<LocalId>, Op)>;

/// An operation that has a result.
#[tactic(auto, unfolding(ir_grammar::specs::Operations::op))]
pub fn op(reader: &mut Reader<'_>) -> Result<Op, ReadFault>
    ensures { Gives result reader.new ((op stated).parse reader.old) }
{
    if is_call(reader) {
        return named_call(reader);
    }
    if reader.is_gep() {
        return gep_op(reader);
    }
    other_op(reader)
}

/// LOCAL `=` op
fn named_line(reader: &mut Reader<'_>) -> Result<Line, ReadFault>
    ensures { Gives result reader.new ((named_line stated).parse reader.old) }
{
    let name = reader.text(Kind::Local)?;
    let result = reader.define(name)?;
    reader.sign(b'=')?;
    let op = op(reader)?;
    Ok(Some((Some(result), op)))
}

fn gep_line(reader: &mut Reader<'_>) -> Result<Line, ReadFault>
    ensures { Gives result reader.new ((gep_line stated).parse reader.old) }
{
    let result = reader.define_next()?;
    let op = gep_op(reader)?;
    Ok(Some((Some(result), op)))
}

fn other_op_line(reader: &mut Reader<'_>) -> Result<Line, ReadFault>
    ensures { Gives result reader.new ((other_op_line stated).parse reader.old) }
{
    let result = reader.define_next()?;
    let op = other_op(reader)?;
    Ok(Some((Some(result), op)))
}

fn store_line(reader: &mut Reader<'_>) -> Result<Line, ReadFault>
    ensures { Gives result reader.new ((store_line stated).parse reader.old) }
{
    let op = store(reader)?;
    Ok(Some((None, op)))
}

/// Does an instruction stand next that begins with another word than `getelementptr`?
pub fn is_other_line(reader: &Reader<'_>) -> bool
    ensures { result ≡ head_in other_line_set reader.now.tokens }
{
    is_call(reader) || reader.is_word(b"store") || is_other_op(reader)
}

/// An instruction that begins with another word than `getelementptr`.
#[tactic(auto, unfolding(ir_grammar::specs::Operations::other_line))]
pub fn other_line(reader: &mut Reader<'_>) -> Result<Line, ReadFault>
    ensures { Gives result reader.new ((other_line stated).parse reader.old) }
{
    if is_call(reader) {
        return unnamed_call(reader);
    }
    if reader.is_word(b"store") {
        return store_line(reader);
    }
    other_op_line(reader)
}

#[tactic(auto, unfolding(ir_grammar::specs::Operations::line))]
fn line(reader: &mut Reader<'_>) -> Result<Line, ReadFault>
    ensures { Gives result reader.new ((line stated).parse reader.old) }
{
    if reader.is_kind(Kind::Local) {
        return named_line(reader);
    }
    if reader.is_gep() {
        return gep_line(reader);
    }
    other_line(reader)
}

/// Does an instruction stand next?
pub fn is_line(reader: &Reader<'_>) -> bool
    ensures { result ≡ head_in line_set reader.now.tokens }
{
    reader.is_kind(Kind::Local) || reader.is_gep() || is_other_line(reader)
}

/// The instruction at a place.
pub fn instr_at(place: Place, line: Line) -> Option<Instr>
    ensures { result ≡ instr_at place line }
{
    match line {
        Some((result, op)) => Some(Instr { place, result, op }),
        None => None,
    }
}

/// [ LOCAL `=` ] op notes
#[tactic(auto, unfolding(ir_grammar::specs::Operations::instr))]
pub fn instr(reader: &mut Reader<'_>) -> Result<Option<Instr>, ReadFault>
    ensures { Gives result reader.new ((instr stated).parse reader.old) }
{
    let place = reader.place();
    let line = line(reader)?;
    Ok(instr_at(place, line))
}
