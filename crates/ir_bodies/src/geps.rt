ghost use Rattle.std.specs.Prelude.{◌≡◌, [], ◌∷◌};
ghost use Rattle.ir_phrases.specs.Gives.{Gives};
ghost use Rattle.ir_grammar.specs.Tokens.{stated};
ghost use Rattle.ir_grammar.specs.Values.{typed};
ghost use Rattle.ir_grammar.specs.Operations.{one_listed, items_and_notes, gep_op_rest, gep_op};

use ir_core::{Op, TypedOperands};
use ir_grammar::Kind;
use ir_phrases::{ReadFault, Reader, push_short};

/// `,` and an index or, after the last one, a note.
fn next_operand(
    reader: &mut Reader<'_>,
    so_far: (bool, TypedOperands),
) -> Result<(bool, TypedOperands), ReadFault>
    ensures { Gives result reader.new ((one_listed (typed stated) so_far).parse reader.old) }
{
    let (noted, mut indices) = so_far;
    reader.sign(b',')?;
    if noted {
        reader.note()?;
        return Ok((true, indices));
    }
    if reader.is_kind(Kind::Meta) {
        reader.note()?;
        return Ok((true, indices));
    }
    let next = reader.typed()?;
    push_short(&mut indices, next)?;
    Ok((false, indices))
}

/// { `,` type value } { `,` note }, after these.
fn indices_and_notes(
    reader: &mut Reader<'_>,
    indices: TypedOperands,
) -> Result<TypedOperands, ReadFault>
    ensures { Gives result reader.new ((items_and_notes (typed stated) indices).parse reader.old) }
{
    let mut so_far = (false, indices);
    while reader.is_sign(b',') {
        so_far = next_operand(reader, so_far)?;
    }
    let (_, indices) = so_far;
    Ok(indices)
}

/// What stands after `getelementptr` and its flags.
#[tactic(auto, unfolding(ir_grammar::specs::Operations::gep_op_rest))]
pub fn gep_op_rest(reader: &mut Reader<'_>) -> Result<Op, ReadFault>
    ensures { Gives result reader.new ((gep_op_rest stated).parse reader.old) }
{
    let ty = reader.type_form()?;
    reader.sign(b',')?;
    let base = reader.typed()?;
    let indices = indices_and_notes(reader, TypedOperands::new(reader.alloc()))?;
    Ok(Op::Gep(ty, base, indices))
}

#[tactic(auto, unfolding(ir_grammar::specs::Operations::gep_op))]
pub fn gep_op(reader: &mut Reader<'_>) -> Result<Op, ReadFault>
    ensures { Gives result reader.new ((gep_op stated).parse reader.old) }
{
    reader.word(b"getelementptr")?;
    reader.gep_flags()?;
    gep_op_rest(reader)
}
