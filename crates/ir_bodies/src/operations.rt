ghost use Rattle.std.specs.Prelude.{◌≡◌, ◌++◌, Some};
ghost use Rattle.ir_grammar.specs.Sets.{head_in};
ghost use Rattle.ir_phrases.specs.Gives.{Gives, IsVerdict};
ghost use Rattle.ir_grammar.specs.Tokens.{look, words_of, one_word, skip, expect, stated};
ghost use Rattle.ir_grammar.specs.Operations.{align_then_notes, note_then_notes, align_or_notes, align_and_notes, bin_words, bin_flag, bin, order_words, may_samesign, icmp, select, cast_words, cast_flag, cast, load, store, icmp_word, select_word, alloca_word, load_word, phi_word, other_words, other_op};

use crate::allocas::alloca;
use crate::endings::noted;
use crate::phis::phi;
use ir_core::{BinOp, CastOp, Cmp, Op};
use ir_phrases::{ReadFault, Reader};

/// The operation that a word names.
fn bin_word(word: &[u8]) -> Option<BinOp>
    ensures { IsVerdict result (look bin_words word.now) }
{
    BinOp::from_text(word)
}

/// The comparison that a word names.
fn order_word(word: &[u8]) -> Option<Cmp>
    ensures { IsVerdict result (look order_words word.now) }
{
    Cmp::from_text(word)
}

/// The conversion that a word names.
fn cast_word(word: &[u8]) -> Option<CastOp>
    ensures { IsVerdict result (look cast_words word.now) }
{
    CastOp::from_text(word)
}

/// `align` INT { `,` note }
#[tactic(auto, unfolding(ir_grammar::specs::Operations::align_then_notes))]
fn align_then_notes(reader: &mut Reader<'_>) -> Result<Option<u32>, ReadFault>
    ensures { Gives result reader.new ((align_then_notes stated).parse reader.old) }
{
    reader.word(b"align")?;
    let n = reader.number()?;
    reader.notes()?;
    Ok(Some(n))
}

/// note { `,` note }
#[tactic(auto, unfolding(ir_grammar::specs::Operations::note_then_notes))]
fn note_then_notes(reader: &mut Reader<'_>) -> Result<(), ReadFault>
    ensures { Gives result reader.new (note_then_notes.parse reader.old) }
{
    reader.note()?;
    reader.notes()
}

/// The same two, after a comma.
#[tactic(auto, unfolding(ir_grammar::specs::Operations::align_or_notes))]
pub fn align_or_notes(reader: &mut Reader<'_>) -> Result<Option<u32>, ReadFault>
    ensures { Gives result reader.new ((align_or_notes stated).parse reader.old) }
{
    if reader.is_word(b"align") {
        return align_then_notes(reader);
    }
    note_then_notes(reader)?;
    Ok(None)
}

/// [ `,` `align` INT ] { `,` note }
#[tactic(auto, unfolding(ir_grammar::specs::Operations::align_and_notes))]
pub fn align_and_notes(reader: &mut Reader<'_>) -> Result<Option<u32>, ReadFault>
    ensures { Gives result reader.new ((align_and_notes stated).parse reader.old) }
{
    if !reader.is_sign(b',') {
        return Ok(None);
    }
    reader.sign(b',')?;
    align_or_notes(reader)
}

fn is_bin(reader: &Reader<'_>) -> bool
    ensures { result ≡ head_in (words_of bin_words) reader.now.tokens }
{
    match reader.next_word() {
        Some(word) => bin_word(word).is_some(),
        None => false,
    }
}

fn bin_op(reader: &mut Reader<'_>) -> Result<BinOp, ReadFault>
    ensures { Gives result reader.new ((one_word bin_words).parse reader.old) }
{
    let Some(word) = reader.next_word() else {
        return Err(reader.fault());
    };
    let Some(op) = bin_word(word) else {
        return Err(reader.fault());
    };
    reader.pass()?;
    Ok(op)
}

fn is_cast(reader: &Reader<'_>) -> bool
    ensures { result ≡ head_in (words_of cast_words) reader.now.tokens }
{
    match reader.next_word() {
        Some(word) => cast_word(word).is_some(),
        None => false,
    }
}

fn cast_op(reader: &mut Reader<'_>) -> Result<CastOp, ReadFault>
    ensures { Gives result reader.new ((one_word cast_words).parse reader.old) }
{
    let Some(word) = reader.next_word() else {
        return Err(reader.fault());
    };
    let Some(op) = cast_word(word) else {
        return Err(reader.fault());
    };
    reader.pass()?;
    Ok(op)
}

fn order(reader: &mut Reader<'_>) -> Result<Cmp, ReadFault>
    ensures { Gives result reader.new ((one_word order_words).parse reader.old) }
{
    let Some(word) = reader.next_word() else {
        return Err(reader.fault());
    };
    let Some(order) = order_word(word) else {
        return Err(reader.fault());
    };
    reader.pass()?;
    Ok(order)
}

fn is_bin_flag(reader: &Reader<'_>) -> bool
    ensures { result ≡ head_in bin_flag reader.now.tokens }
{
    reader.is_word(b"nuw")
        || reader.is_word(b"nsw")
        || reader.is_word(b"exact")
        || reader.is_word(b"disjoint")
}

fn bin_flag(reader: &mut Reader<'_>) -> Result<(), ReadFault>
    ensures { Gives result reader.new ((expect bin_flag).parse reader.old) }
{
    if !is_bin_flag(reader) {
        return Err(reader.fault());
    }
    reader.pass()
}

/// The flags of an operation.
fn bin_flags(reader: &mut Reader<'_>) -> Result<(), ReadFault>
    ensures { Gives result reader.new ((skip bin_flag (expect bin_flag)).parse reader.old) }
{
    while is_bin_flag(reader) {
        bin_flag(reader)?;
    }
    Ok(())
}

#[tactic(auto, unfolding(ir_grammar::specs::Operations::bin))]
fn bin(reader: &mut Reader<'_>) -> Result<Op, ReadFault>
    ensures { Gives result reader.new ((bin stated).parse reader.old) }
{
    let op = bin_op(reader)?;
    bin_flags(reader)?;
    let ty = reader.type_form()?;
    let a = reader.value()?;
    reader.sign(b',')?;
    let b = reader.value()?;
    noted(reader, Op::Bin(op, ty, a, b))
}

/// [ `samesign` ]
fn samesign(reader: &mut Reader<'_>) -> Result<(), ReadFault>
    ensures { Gives result reader.new (may_samesign.parse reader.old) }
{
    if reader.is_word(b"samesign") {
        return reader.word(b"samesign");
    }
    Ok(())
}

#[tactic(auto, unfolding(ir_grammar::specs::Operations::icmp))]
fn icmp(reader: &mut Reader<'_>) -> Result<Op, ReadFault>
    ensures { Gives result reader.new ((icmp stated).parse reader.old) }
{
    reader.word(b"icmp")?;
    samesign(reader)?;
    let order = order(reader)?;
    let ty = reader.type_form()?;
    let a = reader.value()?;
    reader.sign(b',')?;
    let b = reader.value()?;
    noted(reader, Op::Icmp(order, ty, a, b))
}

#[tactic(auto, unfolding(ir_grammar::specs::Operations::select))]
fn select(reader: &mut Reader<'_>) -> Result<Op, ReadFault>
    ensures { Gives result reader.new ((select stated).parse reader.old) }
{
    reader.word(b"select")?;
    let c = reader.typed()?;
    reader.sign(b',')?;
    let a = reader.typed()?;
    reader.sign(b',')?;
    let b = reader.typed()?;
    noted(reader, Op::Select(c, a, b))
}

fn is_cast_flag(reader: &Reader<'_>) -> bool
    ensures { result ≡ head_in cast_flag reader.now.tokens }
{
    reader.is_word(b"nuw") || reader.is_word(b"nsw") || reader.is_word(b"nneg")
}

fn cast_flag(reader: &mut Reader<'_>) -> Result<(), ReadFault>
    ensures { Gives result reader.new ((expect cast_flag).parse reader.old) }
{
    if !is_cast_flag(reader) {
        return Err(reader.fault());
    }
    reader.pass()
}

/// The flags of a conversion.
fn cast_flags(reader: &mut Reader<'_>) -> Result<(), ReadFault>
    ensures { Gives result reader.new ((skip cast_flag (expect cast_flag)).parse reader.old) }
{
    while is_cast_flag(reader) {
        cast_flag(reader)?;
    }
    Ok(())
}

#[tactic(auto, unfolding(ir_grammar::specs::Operations::cast))]
fn cast(reader: &mut Reader<'_>) -> Result<Op, ReadFault>
    ensures { Gives result reader.new ((cast stated).parse reader.old) }
{
    let op = cast_op(reader)?;
    cast_flags(reader)?;
    let a = reader.typed()?;
    reader.word(b"to")?;
    let ty = reader.type_form()?;
    noted(reader, Op::Cast(op, a, ty))
}

#[tactic(auto, unfolding(ir_grammar::specs::Operations::load))]
fn load(reader: &mut Reader<'_>) -> Result<Op, ReadFault>
    ensures { Gives result reader.new ((load stated).parse reader.old) }
{
    reader.word(b"load")?;
    let ty = reader.type_form()?;
    reader.sign(b',')?;
    let address = reader.typed()?;
    let align = align_and_notes(reader)?;
    Ok(Op::Load(ty, address, align))
}

#[tactic(auto, unfolding(ir_grammar::specs::Operations::store))]
pub fn store(reader: &mut Reader<'_>) -> Result<Op, ReadFault>
    ensures { Gives result reader.new ((store stated).parse reader.old) }
{
    reader.word(b"store")?;
    let value = reader.typed()?;
    reader.sign(b',')?;
    let address = reader.typed()?;
    let align = align_and_notes(reader)?;
    Ok(Op::Store(value, address, align))
}

/// Does such an operation stand next?
#[tactic(auto, using(crate::proofs::Heads::op_heads))]
pub fn is_other_op(reader: &Reader<'_>) -> bool
    ensures { result ≡ head_in other_words reader.now.tokens }
{
    let computes = is_computation(reader);
    let other = is_cast_or_memory(reader);
    computes || other
}

fn is_computation(reader: &Reader<'_>) -> bool
    ensures { result ≡ head_in (words_of bin_words ++ icmp_word ++ select_word) reader.now.tokens }
{
    is_bin(reader) || reader.is_word(b"icmp") || reader.is_word(b"select")
}

fn is_cast_or_memory(reader: &Reader<'_>) -> bool
    ensures { result ≡ head_in (words_of cast_words ++ alloca_word ++ load_word ++ phi_word) reader.now.tokens }
{
    is_cast(reader)
        || reader.is_word(b"alloca")
        || reader.is_word(b"load")
        || reader.is_word(b"phi")
}

/// An operation that has a result, but a call or a `getelementptr`.
#[tactic(auto, unfolding(ir_grammar::specs::Operations::other_op))]
pub fn other_op(reader: &mut Reader<'_>) -> Result<Op, ReadFault>
    ensures { Gives result reader.new ((other_op stated).parse reader.old) }
{
    if is_bin(reader) {
        return bin(reader);
    }
    if reader.is_word(b"icmp") {
        return icmp(reader);
    }
    if reader.is_word(b"select") {
        return select(reader);
    }
    if is_cast(reader) {
        return cast(reader);
    }
    if reader.is_word(b"alloca") {
        return alloca(reader);
    }
    if reader.is_word(b"load") {
        return load(reader);
    }
    phi(reader)
}
