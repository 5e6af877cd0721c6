ghost use Rattle.std.specs.Prelude.{◌≡◌, ◌∷◌, ◌++◌, [], IfOk};
ghost use Rattle.ir_grammar.specs.Sets.{head_in};
ghost use Rattle.ir_grammar.specs.Tokens.{stated};
ghost use Rattle.ir_grammar.specs.Bodies.{next_block, next_set, all_blocks, last_blocks, more_blocks, body};
ghost use Rattle.ir_phrases.specs.Gives.{Gives};

use crate::blocks::{block, is_block};
use crate::void_returns::{after_void, goes_on_after_void};
use ir_core::{Block, Blocks};
use ir_grammar::Progress;
use ir_phrases::{ReadFault, Reader, push};
use oi_base::NoMemory;

/// Does one more block, or the value that this one waits for, stand next?
fn goes_on(reader: &Reader<'_>, waits: &Option<Block>) -> bool
    ensures { result ≡ head_in (next_set waits.now) reader.now.tokens }
{
    match waits {
        Some(_) => goes_on_after_void(reader),
        None => is_block(reader),
    }
}

fn next_block(reader: &mut Reader<'_>, progress: Progress) -> Result<Progress, ReadFault>
    ensures { Gives result reader.new ((next_block stated progress.done progress.waits).parse reader.old) }
{
    let Progress { done, waits } = progress;
    match waits {
        Some(waiting) => after_void(reader, done, waiting),
        None => block(reader, done),
    }
}

fn all_blocks(progress: Progress) -> Result<Blocks, NoMemory>
    ensures { IfOk result (λ bs. bs ≡ all_blocks progress.done progress.waits) }
{
    let Progress { done, waits } = progress;
    let mut done = done;
    if let Some(block) = waits {
        push(&mut done, block)?;
    }
    Ok(done)
}

fn last_blocks(reader: &mut Reader<'_>, progress: Progress) -> Result<Blocks, ReadFault>
    ensures { Gives result reader.new ((last_blocks progress).parse reader.old) }
{
    reader.sign(b'}')?;
    Ok(all_blocks(progress)?)
}

/// { block } `}`
#[tactic(auto, unfolding(ir_grammar::specs::Bodies::more_blocks))]
fn more_blocks(reader: &mut Reader<'_>, progress: Progress) -> Result<Blocks, ReadFault>
    ensures { Gives result reader.new ((more_blocks stated progress).parse reader.old) }
{
    let mut progress = progress;
    while goes_on(reader, &progress.waits) {
        progress = next_block(reader, progress)?;
    }
    last_blocks(reader, progress)
}

/// `{` block { block } `}`
#[tactic(auto, unfolding(ir_grammar::specs::Bodies::body))]
pub fn body(reader: &mut Reader<'_>) -> Result<Blocks, ReadFault>
    ensures { Gives result reader.new ((body stated).parse reader.old) }
{
    reader.sign(b'{')?;
    let none = Blocks::new(reader.alloc());
    let first = block(reader, none)?;
    more_blocks(reader, first)
}
