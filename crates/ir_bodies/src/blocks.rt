ghost use Rattle.std.specs.Prelude.{◌≡◌, ◌∷◌, ◌++◌, [], IfOk};
ghost use Rattle.ir_grammar.specs.Sets.{head_in};
ghost use Rattle.ir_grammar.specs.declared.kinds.Kind.TheVariants as kinds;
ghost use Rattle.ir_grammar.specs.Forms.{either};
ghost use Rattle.ir_grammar.specs.Tokens.{stated, kind as kind_set};
ghost use Rattle.ir_grammar.specs.Bodies.{with_instr, one_more_instr, code, finish, lines, labelled, unlabelled, block_of, grown, block, block_set};
ghost use Rattle.ir_phrases.specs.Gives.{Gives};

use crate::lines::{instr, is_line};
use crate::terminators::{end_form, is_end};
use ir_core::{Block, Blocks, Instr, Instrs, LocalId};
use ir_grammar::{Kind, Lines, Progress};
use ir_phrases::{ReadFault, Reader, push};
use oi_base::{NoMemory, Place};

/// Instructions, after those that are there.
pub fn with_instr(code: Instrs, instr: Option<Instr>) -> Result<Instrs, NoMemory>
    ensures { IfOk result (λ is. is ≡ with_instr code instr) }
{
    let mut code = code;
    if let Some(instr) = instr {
        push(&mut code, instr)?;
    }
    Ok(code)
}

fn one_more_instr(reader: &mut Reader<'_>, code: Instrs) -> Result<Instrs, ReadFault>
    ensures { Gives result reader.new ((one_more_instr stated code).parse reader.old) }
{
    let next = instr(reader)?;
    Ok(with_instr(code, next)?)
}

/// Instructions, after those that are there.
#[tactic(auto, unfolding(ir_grammar::specs::Bodies::code))]
fn code(reader: &mut Reader<'_>, before: Instrs) -> Result<Instrs, ReadFault>
    ensures { Gives result reader.new ((code stated before).parse reader.old) }
{
    let mut code = before;
    while is_line(reader) {
        code = one_more_instr(reader, code)?;
    }
    Ok(code)
}

/// The terminator of a block with this label and these instructions.
#[tactic(auto, unfolding(ir_grammar::specs::Bodies::finish))]
pub fn finish(reader: &mut Reader<'_>, label: LocalId, code: Instrs) -> Result<Lines, ReadFault>
    ensures { Gives result reader.new ((finish stated label code).parse reader.old) }
{
    let end_place = reader.place();
    let (end, bare) = end_form(reader)?;
    Ok(Lines {
        label,
        code,
        end,
        end_place,
        bare,
    })
}

/// Instructions and the terminator of a block with this label and these instructions before.
#[tactic(auto, unfolding(ir_grammar::specs::Bodies::lines))]
pub fn lines(reader: &mut Reader<'_>, label: LocalId, before: Instrs) -> Result<Lines, ReadFault>
    ensures { Gives result reader.new ((lines stated label before).parse reader.old) }
{
    let code = code(reader, before)?;
    finish(reader, label, code)
}

/// LABEL, instructions and a terminator.
#[tactic(auto, unfolding(ir_grammar::specs::Bodies::labelled))]
pub fn labelled(reader: &mut Reader<'_>) -> Result<Lines, ReadFault>
    ensures { Gives result reader.new ((labelled stated).parse reader.old) }
{
    let name = reader.text(Kind::Label)?;
    let label = reader.define(name)?;
    let none = Instrs::new(reader.alloc());
    lines(reader, label, none)
}

#[tactic(auto, unfolding(ir_grammar::specs::Bodies::unlabelled))]
fn unlabelled(reader: &mut Reader<'_>) -> Result<Lines, ReadFault>
    ensures { Gives result reader.new ((unlabelled stated).parse reader.old) }
{
    let label = reader.define_next()?;
    let none = Instrs::new(reader.alloc());
    lines(reader, label, none)
}

/// The blocks with one more at this place, which waits for a value after its bare `ret void`.
pub fn grown(blocks: Blocks, place: Place, lines: Lines) -> Result<Progress, NoMemory>
    ensures { IfOk result (λ p. p ≡ grown blocks lines.bare (block_of place lines)) }
{
    let mut done = blocks;
    let bare = lines.bare;
    let block = Block {
        place,
        label: lines.label,
        code: lines.code,
        end: lines.end,
        end_place: lines.end_place,
    };
    if bare {
        return Ok(Progress {
            done,
            waits: Some(block),
        });
    }
    push(&mut done, block)?;
    Ok(Progress { done, waits: None })
}

fn labelled_or_not(reader: &mut Reader<'_>) -> Result<Lines, ReadFault>
    ensures { Gives result reader.new ((either (kind_set kinds.Label) (labelled stated) (unlabelled stated)).parse reader.old) }
{
    if reader.is_kind(Kind::Label) {
        return labelled(reader);
    }
    unlabelled(reader)
}

/// [ LABEL ] { instruction } terminator
#[tactic(auto, unfolding(ir_grammar::specs::Bodies::block))]
pub fn block(reader: &mut Reader<'_>, blocks: Blocks) -> Result<Progress, ReadFault>
    ensures { Gives result reader.new ((block stated blocks).parse reader.old) }
{
    let place = reader.place();
    let lines = labelled_or_not(reader)?;
    Ok(grown(blocks, place, lines)?)
}

/// Does a block stand next?
pub fn is_block(reader: &Reader<'_>) -> bool
    ensures { result ≡ head_in block_set reader.now.tokens }
{
    reader.is_kind(Kind::Label) || is_line(reader) || is_end(reader)
}
