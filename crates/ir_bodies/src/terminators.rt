ghost use Rattle.std.specs.Prelude.{◌≡◌, true, []};
ghost use Rattle.ir_grammar.specs.Sets.{head_in};
ghost use Rattle.ir_grammar.specs.Forms.{either};
ghost use Rattle.ir_grammar.specs.Types.{type_set};
ghost use Rattle.ir_grammar.specs.Tokens.{stated, many};
ghost use Rattle.ir_grammar.specs.Bodies.{label, label_word, void_word, after_void_word, void_end, value_end, ret_end, cond_end, label_end, br_end, switch_case, switch_end, unreachable_end, closed_end, end_form, end_set};
ghost use Rattle.ir_phrases.specs.Gives.{Gives};

use crate::endings::noted;
use ir_core::{End, LocalId, SwitchCase, SwitchCases, TypedOperand};
use ir_grammar::Kind;
use ir_phrases::{ReadFault, Reader, push};

/// A terminator, and whether it is `ret void`, after which a value may stand.
type Ended = (End, bool);

/// `label` LOCAL
#[tactic(auto, unfolding(ir_grammar::specs::Bodies::label))]
fn label(reader: &mut Reader<'_>) -> Result<LocalId, ReadFault>
    ensures { Gives result reader.new (label.parse reader.old) }
{
    reader.word(b"label")?;
    let name = reader.text(Kind::Local)?;
    reader.see_local(name)
}

/// Notes after `ret void`, or its end.
fn after_void_word(reader: &mut Reader<'_>) -> Result<Ended, ReadFault>
    ensures { Gives result reader.new (after_void_word.parse reader.old) }
{
    if !reader.is_sign(b',') {
        return Ok((End::Ret(None), true));
    }
    reader.next_note()?;
    noted(reader, (End::Ret(None), false))
}

/// `void`: with a note after it no value can come.
#[tactic(auto, unfolding(ir_grammar::specs::Bodies::void_end))]
fn void_end(reader: &mut Reader<'_>) -> Result<Ended, ReadFault>
    ensures { Gives result reader.new (void_end.parse reader.old) }
{
    reader.word(b"void")?;
    after_void_word(reader)
}

fn value_end(reader: &mut Reader<'_>) -> Result<Ended, ReadFault>
    ensures { Gives result reader.new ((value_end stated).parse reader.old) }
{
    let ty = reader.value_type()?;
    let value = reader.value()?;
    noted(reader, (End::Ret(Some(TypedOperand { ty, value })), false))
}

fn void_or_value(reader: &mut Reader<'_>) -> Result<Ended, ReadFault>
    ensures { Gives result reader.new ((either void_word void_end (value_end stated)).parse reader.old) }
{
    if reader.is_word(b"void") {
        return void_end(reader);
    }
    value_end(reader)
}

/// `ret void`, or `ret` type value
#[tactic(auto, unfolding(ir_grammar::specs::Bodies::ret_end))]
fn ret_end(reader: &mut Reader<'_>) -> Result<Ended, ReadFault>
    ensures { Gives result reader.new ((ret_end stated).parse reader.old) }
{
    reader.word(b"ret")?;
    void_or_value(reader)
}

fn label_end(reader: &mut Reader<'_>) -> Result<End, ReadFault>
    ensures { Gives result reader.new (label_end.parse reader.old) }
{
    let to = label(reader)?;
    noted(reader, End::Br(to))
}

/// type value `,` `label` LOCAL `,` `label` LOCAL
fn cond_end(reader: &mut Reader<'_>) -> Result<End, ReadFault>
    ensures { Gives result reader.new ((cond_end stated).parse reader.old) }
{
    let condition = reader.typed()?;
    reader.sign(b',')?;
    let yes = label(reader)?;
    reader.sign(b',')?;
    let no = label(reader)?;
    noted(reader, End::Cond(condition, yes, no))
}

fn label_or_cond(reader: &mut Reader<'_>) -> Result<End, ReadFault>
    ensures { Gives result reader.new ((either label_word label_end (cond_end stated)).parse reader.old) }
{
    if reader.is_word(b"label") {
        return label_end(reader);
    }
    cond_end(reader)
}

#[tactic(auto, unfolding(ir_grammar::specs::Bodies::br_end))]
fn br_end(reader: &mut Reader<'_>) -> Result<End, ReadFault>
    ensures { Gives result reader.new ((br_end stated).parse reader.old) }
{
    reader.word(b"br")?;
    label_or_cond(reader)
}

/// type value `,` `label` LOCAL
#[tactic(auto, unfolding(ir_grammar::specs::Bodies::switch_case))]
fn switch_case(reader: &mut Reader<'_>) -> Result<SwitchCase, ReadFault>
    ensures { Gives result reader.new ((switch_case stated).parse reader.old) }
{
    let value = reader.typed()?;
    reader.sign(b',')?;
    let to = label(reader)?;
    Ok(SwitchCase { value, to })
}

fn switch_cases(reader: &mut Reader<'_>) -> Result<SwitchCases, ReadFault>
    ensures { Gives result reader.new ((many (type_set true) (switch_case stated) []).parse reader.old) }
{
    let mut cases = SwitchCases::new(reader.alloc());
    while reader.is_type() {
        let next = switch_case(reader)?;
        push(&mut cases, next)?;
    }
    Ok(cases)
}

/// `switch` type value `,` `label` LOCAL `[` { case } `]`
#[tactic(auto, unfolding(ir_grammar::specs::Bodies::switch_end))]
fn switch_end(reader: &mut Reader<'_>) -> Result<End, ReadFault>
    ensures { Gives result reader.new ((switch_end stated).parse reader.old) }
{
    reader.word(b"switch")?;
    let value = reader.typed()?;
    reader.sign(b',')?;
    let default = label(reader)?;
    reader.sign(b'[')?;
    let cases = switch_cases(reader)?;
    reader.sign(b']')?;
    noted(reader, End::Switch(value, default, cases))
}

#[tactic(auto, unfolding(ir_grammar::specs::Bodies::unreachable_end))]
fn unreachable_end(reader: &mut Reader<'_>) -> Result<End, ReadFault>
    ensures { Gives result reader.new (unreachable_end.parse reader.old) }
{
    reader.word(b"unreachable")?;
    noted(reader, End::Unreachable)
}

/// A terminator, and whether it is `ret void` without a note.
#[tactic(auto, unfolding(ir_grammar::specs::Bodies::end_form))]
pub fn end_form(reader: &mut Reader<'_>) -> Result<Ended, ReadFault>
    ensures { Gives result reader.new ((end_form stated).parse reader.old) }
{
    if reader.is_word(b"ret") {
        return ret_end(reader);
    }
    if reader.is_word(b"br") {
        return Ok((br_end(reader)?, false));
    }
    if reader.is_word(b"switch") {
        return Ok((switch_end(reader)?, false));
    }
    Ok((unreachable_end(reader)?, false))
}

/// Does a terminator stand next?
pub fn is_end(reader: &Reader<'_>) -> bool
    ensures { result ≡ head_in end_set reader.now.tokens }
{
    reader.is_word(b"ret")
        || reader.is_word(b"br")
        || reader.is_word(b"switch")
        || reader.is_word(b"unreachable")
}
