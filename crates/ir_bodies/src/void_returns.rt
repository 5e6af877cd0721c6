ghost use Rattle.std.specs.Prelude.{◌≡◌, ◌∷◌, ◌++◌, [], IfOk};
ghost use Rattle.ir_grammar.specs.Values.{gep_word};
ghost use Rattle.ir_grammar.specs.declared.kinds.Kind.TheVariants as kinds;
ghost use Rattle.ir_grammar.specs.Sets.{head_in};
ghost use Rattle.ir_grammar.specs.Forms.{either};
ghost use Rattle.ir_grammar.specs.Tokens.{stated, sign as sign_set, kind as kind_set};
ghost use Rattle.ir_grammar.specs.Bodies.{settled, begun, labelled, local_begins, local_settles, local_after, gep_begins, gep_settles, gep_after, plain_value_set, plain_value, value_after, lines_after, other_lines, other_unlabelled, other_block, other_block_set, after_void};
ghost use Rattle.ir_phrases.specs.Gives.{Gives};

use crate::blocks::{finish, grown, labelled, lines, with_instr};
use crate::endings::noted;
use crate::geps::gep_op_rest;
use crate::lines::{instr_at, is_other_line, op, other_line};
use crate::terminators::is_end;
use ir_core::{
    Block, Blocks, Const, End, Instr, Instrs, IrType, LocalId, MOST_LEVELS, Op, Operand,
    TypedOperand,
};
use ir_grammar::{Kind, Lines, Progress};
use ir_phrases::{ReadFault, Reader, push};
use oi_base::{NoMemory, Place, Text};

/// The blocks with one more, which ends in `ret void` and this value.
fn settled(blocks: Blocks, block: Block, value: Operand) -> Result<Progress, NoMemory>
    ensures { IfOk result (λ p. p ≡ settled blocks block value) }
{
    let mut done = blocks;
    let mut block = block;
    block.end = End::Ret(Some(TypedOperand {
        ty: IrType::Void,
        value,
    }));
    done.push(block)?;
    Ok(Progress { done, waits: None })
}

/// The blocks with the one that waited.
fn with_block(blocks: Blocks, block: Block) -> Result<Blocks, NoMemory>
    ensures { IfOk result (λ bs. bs ≡ blocks ++ block ∷ []) }
{
    let mut done = blocks;
    done.push(block)?;
    Ok(done)
}

/// The rest of a block without a label that this operation begins.
fn begun(
    reader: &mut Reader<'_>,
    blocks: Blocks,
    place: Place,
    label: LocalId,
    register: LocalId,
    op: Op,
) -> Result<Progress, ReadFault>
    ensures { Gives result reader.new ((begun stated blocks place (label, (register, op))).parse reader.old) }
{
    let mut code = Instrs::new(reader.alloc());
    let first = Instr {
        place,
        result: Some(register),
        op,
    };
    push(&mut code, first)?;
    let lines = lines(reader, label, code)?;
    Ok(grown(blocks, place, lines)?)
}

/// A block whose first instruction is this LOCAL's.
fn local_begins(
    reader: &mut Reader<'_>,
    blocks: Blocks,
    place: Place,
    name: Text,
) -> Result<Progress, ReadFault>
    ensures { Gives result reader.new ((local_begins stated blocks place name).parse reader.old) }
{
    reader.sign(b'=')?;
    let label = reader.define_next()?;
    let register = reader.define(name)?;
    let op = op(reader)?;
    begun(reader, blocks, place, label, register, op)
}

fn local_settles(
    reader: &mut Reader<'_>,
    blocks: Blocks,
    block: Block,
    name: Text,
) -> Result<Progress, ReadFault>
    ensures { Gives result reader.new ((local_settles blocks block name).parse reader.old) }
{
    let value = reader.see_local(name)?;
    let done = settled(blocks, block, Operand::Local(value))?;
    noted(reader, done)
}

fn after_local(
    reader: &mut Reader<'_>,
    blocks: Blocks,
    block: Block,
    place: Place,
    name: Text,
) -> Result<Progress, ReadFault>
    ensures { Gives result reader.new ((either (sign_set 61) (local_begins stated (blocks ++ block ∷ []) place name) (local_settles blocks block name)).parse reader.old) }
{
    if reader.is_sign(b'=') {
        let done = with_block(blocks, block)?;
        return local_begins(reader, done, place, name);
    }
    local_settles(reader, blocks, block, name)
}

/// After `ret void`: a LOCAL is its value, or with `=` the first instruction of the next block.
#[tactic(auto, unfolding(ir_grammar::specs::Bodies::local_after))]
fn local_after(reader: &mut Reader<'_>, blocks: Blocks, block: Block) -> Result<Progress, ReadFault>
    ensures { Gives result reader.new ((local_after stated blocks block).parse reader.old) }
{
    let place = reader.place();
    let name = reader.text(Kind::Local)?;
    after_local(reader, blocks, block, place, name)
}

fn gep_begins(reader: &mut Reader<'_>, blocks: Blocks, place: Place) -> Result<Progress, ReadFault>
    ensures { Gives result reader.new ((gep_begins stated blocks place).parse reader.old) }
{
    let label = reader.define_next()?;
    let register = reader.define_next()?;
    let op = gep_op_rest(reader)?;
    begun(reader, blocks, place, label, register, op)
}

fn gep_settles(reader: &mut Reader<'_>, blocks: Blocks, block: Block) -> Result<Progress, ReadFault>
    ensures { Gives result reader.new ((gep_settles stated blocks block).parse reader.old) }
{
    let value = reader.gep_rest(MOST_LEVELS)?;
    let done = settled(blocks, block, Operand::Const(value))?;
    noted(reader, done)
}

fn after_gep(
    reader: &mut Reader<'_>,
    blocks: Blocks,
    block: Block,
    place: Place,
) -> Result<Progress, ReadFault>
    ensures { Gives result reader.new ((either (sign_set 40) (gep_settles stated blocks block) (gep_begins stated (blocks ++ block ∷ []) place)).parse reader.old) }
{
    if reader.is_sign(b'(') {
        return gep_settles(reader, blocks, block);
    }
    let done = with_block(blocks, block)?;
    gep_begins(reader, done, place)
}

/// After `ret void`: a `getelementptr` is its value where a bracket follows, else the first instruction of the next
/// block.
#[tactic(auto, unfolding(ir_grammar::specs::Bodies::gep_after))]
fn gep_after(reader: &mut Reader<'_>, blocks: Blocks, block: Block) -> Result<Progress, ReadFault>
    ensures { Gives result reader.new ((gep_after stated blocks block).parse reader.old) }
{
    let place = reader.place();
    reader.word(b"getelementptr")?;
    reader.gep_flags()?;
    after_gep(reader, blocks, block, place)
}

/// Does a constant stand next that is no `getelementptr`?
fn is_plain_value(reader: &Reader<'_>) -> bool
    ensures { result ≡ head_in plain_value_set reader.now.tokens }
{
    reader.is_kind(Kind::Global) || reader.is_kind(Kind::Int) || reader.is_const_word()
}

fn plain_value(reader: &mut Reader<'_>) -> Result<Const, ReadFault>
    ensures { Gives result reader.new (plain_value.parse reader.old) }
{
    if reader.is_kind(Kind::Global) {
        return reader.address();
    }
    if reader.is_kind(Kind::Int) {
        return reader.integer();
    }
    reader.const_of_word()
}

/// After `ret void`: another value.
#[tactic(auto, unfolding(ir_grammar::specs::Bodies::value_after))]
fn value_after(reader: &mut Reader<'_>, blocks: Blocks, block: Block) -> Result<Progress, ReadFault>
    ensures { Gives result reader.new ((value_after blocks block).parse reader.old) }
{
    let value = plain_value(reader)?;
    let done = settled(blocks, block, Operand::Const(value))?;
    noted(reader, done)
}

/// The lines of a block without a label, after its first instruction, which is no `getelementptr`.
fn lines_after(reader: &mut Reader<'_>, label: LocalId) -> Result<Lines, ReadFault>
    ensures { Gives result reader.new ((lines_after stated label).parse reader.old) }
{
    let place = reader.place();
    let line = other_line(reader)?;
    let none = Instrs::new(reader.alloc());
    let code = with_instr(none, instr_at(place, line))?;
    lines(reader, label, code)
}

#[tactic(auto, unfolding(ir_grammar::specs::Bodies::other_lines))]
fn other_lines(reader: &mut Reader<'_>, label: LocalId) -> Result<Lines, ReadFault>
    ensures { Gives result reader.new ((other_lines stated label).parse reader.old) }
{
    if is_other_line(reader) {
        return lines_after(reader, label);
    }
    let none = Instrs::new(reader.alloc());
    finish(reader, label, none)
}

#[tactic(auto, unfolding(ir_grammar::specs::Bodies::other_unlabelled))]
fn other_unlabelled(reader: &mut Reader<'_>) -> Result<Lines, ReadFault>
    ensures { Gives result reader.new ((other_unlabelled stated).parse reader.old) }
{
    let label = reader.define_next()?;
    other_lines(reader, label)
}

fn labelled_or_other(reader: &mut Reader<'_>) -> Result<Lines, ReadFault>
    ensures { Gives result reader.new ((either (kind_set kinds.Label) (labelled stated) (other_unlabelled stated)).parse reader.old) }
{
    if reader.is_kind(Kind::Label) {
        return labelled(reader);
    }
    other_unlabelled(reader)
}

#[tactic(auto, unfolding(ir_grammar::specs::Bodies::other_block))]
fn other_block(reader: &mut Reader<'_>, blocks: Blocks) -> Result<Progress, ReadFault>
    ensures { Gives result reader.new ((other_block stated blocks).parse reader.old) }
{
    let place = reader.place();
    let lines = labelled_or_other(reader)?;
    Ok(grown(blocks, place, lines)?)
}

/// After `ret void`: its value, or the next block.
#[tactic(auto, unfolding(ir_grammar::specs::Bodies::after_void))]
pub fn after_void(
    reader: &mut Reader<'_>,
    blocks: Blocks,
    block: Block,
) -> Result<Progress, ReadFault>
    ensures { Gives result reader.new ((after_void stated blocks block).parse reader.old) }
{
    if reader.is_kind(Kind::Local) {
        return local_after(reader, blocks, block);
    }
    if reader.is_gep() {
        return gep_after(reader, blocks, block);
    }
    if is_plain_value(reader) {
        return value_after(reader, blocks, block);
    }
    let done = with_block(blocks, block)?;
    other_block(reader, done)
}

/// Does a value or a block stand next?
#[tactic(auto, using(crate::proofs::Heads::void_heads))]
pub fn goes_on_after_void(reader: &Reader<'_>) -> bool
    ensures { result ≡ head_in (kind_set kinds.Local ++ gep_word ++ plain_value_set ++ other_block_set) reader.now.tokens }
{
    let value = is_value_after(reader);
    let block = is_other_block(reader);
    value || block
}

fn is_value_after(reader: &Reader<'_>) -> bool
    ensures { result ≡ head_in (kind_set kinds.Local ++ gep_word ++ plain_value_set) reader.now.tokens }
{
    reader.is_kind(Kind::Local) || reader.is_gep() || is_plain_value(reader)
}

fn is_other_block(reader: &Reader<'_>) -> bool
    ensures { result ≡ head_in other_block_set reader.now.tokens }
{
    reader.is_kind(Kind::Label) || is_other_line(reader) || is_end(reader)
}
