ghost use Rattle.std.specs.Prelude.{◌≡◌};
ghost use Rattle.ir_phrases.specs.Gives.{Gives};
ghost use Rattle.ir_grammar.specs.Tokens.{stated};
ghost use Rattle.ir_grammar.specs.Operations.{count_and_rest, align_alone, after_alloca, alloca_rest, alloca, other_op};

use crate::operations::{align_and_notes, align_or_notes};
use ir_core::{Op, TypedCount};
use ir_phrases::{ReadFault, Reader};

/// type INT [ `,` `align` INT ] { `,` note }
#[tactic(auto, unfolding(ir_grammar::specs::Operations::count_and_rest))]
fn count_and_rest(reader: &mut Reader<'_>) -> Result<(Option<TypedCount>, Option<u32>), ReadFault>
    ensures { Gives result reader.new ((count_and_rest stated).parse reader.old) }
{
    let ty = reader.type_form()?;
    let count = i128::from(reader.number()?);
    let align = align_and_notes(reader)?;
    Ok((Some(TypedCount { ty, count }), align))
}

fn align_alone(reader: &mut Reader<'_>) -> Result<(Option<TypedCount>, Option<u32>), ReadFault>
    ensures { Gives result reader.new ((align_alone stated).parse reader.old) }
{
    let align = align_or_notes(reader)?;
    Ok((None, align))
}

fn after_alloca(reader: &mut Reader<'_>) -> Result<(Option<TypedCount>, Option<u32>), ReadFault>
    ensures { Gives result reader.new ((after_alloca stated).parse reader.old) }
{
    if reader.is_type() {
        return count_and_rest(reader);
    }
    align_alone(reader)
}

fn alloca_rest(reader: &mut Reader<'_>) -> Result<(Option<TypedCount>, Option<u32>), ReadFault>
    ensures { Gives result reader.new ((alloca_rest stated).parse reader.old) }
{
    if !reader.is_sign(b',') {
        return Ok((None, None));
    }
    reader.sign(b',')?;
    after_alloca(reader)
}

#[tactic(auto, unfolding(ir_grammar::specs::Operations::alloca))]
pub fn alloca(reader: &mut Reader<'_>) -> Result<Op, ReadFault>
    ensures { Gives result reader.new ((alloca stated).parse reader.old) }
{
    reader.word(b"alloca")?;
    let ty = reader.type_form()?;
    let (count, align) = alloca_rest(reader)?;
    Ok(Op::Alloca(ty, count, align))
}
