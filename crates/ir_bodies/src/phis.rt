ghost use Rattle.std.specs.Prelude.{◌≡◌, [], ◌∷◌};
ghost use Rattle.ir_phrases.specs.Gives.{Gives};
ghost use Rattle.ir_grammar.specs.Tokens.{stated};
ghost use Rattle.ir_grammar.specs.Operations.{one_listed, items_and_notes, pair, phi};

use ir_core::{Op, Pair, Pairs};
use ir_grammar::Kind;
use ir_phrases::{ReadFault, Reader, push_short};

/// `[` value `,` LOCAL `]`
#[tactic(auto, unfolding(ir_grammar::specs::Operations::pair))]
fn pair(reader: &mut Reader<'_>) -> Result<Pair, ReadFault>
    ensures { Gives result reader.new ((pair stated).parse reader.old) }
{
    reader.sign(b'[')?;
    let value = reader.value()?;
    reader.sign(b',')?;
    let name = reader.text(Kind::Local)?;
    let from = reader.see_local(name)?;
    reader.sign(b']')?;
    Ok(Pair { value, from })
}

/// `,` and a pair or, after the last one, a note.
fn next_pair(reader: &mut Reader<'_>, so_far: (bool, Pairs)) -> Result<(bool, Pairs), ReadFault>
    ensures { Gives result reader.new ((one_listed (pair stated) so_far).parse reader.old) }
{
    let (noted, mut pairs) = so_far;
    reader.sign(b',')?;
    if noted {
        reader.note()?;
        return Ok((true, pairs));
    }
    if reader.is_kind(Kind::Meta) {
        reader.note()?;
        return Ok((true, pairs));
    }
    let next = pair(reader)?;
    push_short(&mut pairs, next)?;
    Ok((false, pairs))
}

/// { `,` pair } { `,` note }, after these pairs.
fn pairs_and_notes(reader: &mut Reader<'_>, pairs: Pairs) -> Result<Pairs, ReadFault>
    ensures { Gives result reader.new ((items_and_notes (pair stated) pairs).parse reader.old) }
{
    let mut so_far = (false, pairs);
    while reader.is_sign(b',') {
        so_far = next_pair(reader, so_far)?;
    }
    let (_, pairs) = so_far;
    Ok(pairs)
}

#[tactic(auto, unfolding(ir_grammar::specs::Operations::phi))]
pub fn phi(reader: &mut Reader<'_>) -> Result<Op, ReadFault>
    ensures { Gives result reader.new ((phi stated).parse reader.old) }
{
    reader.word(b"phi")?;
    let ty = reader.type_form()?;
    let first = pair(reader)?;
    let mut pairs = Pairs::new(reader.alloc());
    push_short(&mut pairs, first)?;
    let pairs = pairs_and_notes(reader, pairs)?;
    Ok(Op::Phi(ty, pairs))
}
