ghost use Rattle.std.specs.Prelude.{◌≡◌, ◌<◌, ◌≤◌, ◌+◌, ◌*◌, ◌++◌, ◌∷◌, [], true, false, All, OnOk, IfOk, IfErr, length};
ghost use Rattle.std.specs.List.{flat_map};
ghost use Rattle.ir_core.specs.WellFormed.{IsWellFormed};
ghost use Rattle.frame_layout.specs.declared.laying.TheConstants.{LARGEST_FRAME};
ghost use Rattle.frame_layout.specs.Frame.{frame};
ghost use Rattle.rv_select.specs.Branches.{is_long, count_true, place};
ghost use Rattle.rv_select.specs.Pending.{IsItem, branch, opposite, distance, jump, branch_items, draft_items};
ghost use Rattle.rv_select.specs.Lowered.{instr, block, blocks_from, prologue, keep_parameters, HasFewArguments};
ghost use Rattle.rv_select.specs.Incoming.{HasIncoming};
ghost use Rattle.rv_select.specs.Heads.{HasFewIn, heads_from, head_in, IsTooLong};
ghost use Rattle.rv_select.specs.Code.{code, code_with, code_bytes, items_of, IsRefused};

use crate::builder::CodeBuilder;
use crate::code::Code;
use crate::ends::{push_before_end, push_end, push_head};
use crate::faults::{Cause, NoSize, SelectFault};
use crate::incoming::Incoming;
use crate::instrs::{push_instr, push_store};
use crate::item::{Draft, Item, Test};
use crate::pieces::push_open_frame;
use crate::settling::{Choice, head, settle};
use frame_layout::{Frame, FrameFault, layout};
use ir_core::{FlatBlock, FlatBody, FlatInstr};
use oi_base::{BlockId, NoMemory, RegId};
use rv_isa::{Rv, X};
use std::alloc::Global;

/// The size of the largest code, in bytes.
pub const LARGEST_CODE: usize = 1_000_000;

/// How many items the largest code has, each of four bytes.
const MOST_ITEMS: usize = LARGEST_CODE / 4;

/// The code of a body, by the table of the lowering.
///
/// It takes time linear in the body and its code, and once more in the code for each round in which branches that do not
/// reach their blocks become long. Only bodies made for it take more than a few rounds, and none takes more than it has
/// branches.
///
/// It answers `Frame` where `layout` refuses the body's frame, and else `Code` where the code would have more than
/// `LARGEST_CODE` bytes.
pub fn select(alloc: Global, b: &FlatBody) -> Result<Code, SelectFault>
    requires { IsWellFormed b.now }
    ensures code { IfOk result (λ c. c ≡ code b.now) }
    ensures frame { IfOk result (λ c. frame b.now ≤ LARGEST_FRAME) }
    ensures fits { IfOk result (λ c. code_bytes b.now ≤ LARGEST_CODE) }
    ensures items { IfOk result (λ c. All IsItem (code b.now)) }
    ensures refused { IfErr result (λ e. IsRefused b.now e) }
{
    match layout(alloc, b) {
        Ok(frame) => with_frame(alloc, b, &frame),
        Err(FrameFault::FrameTooLarge(number)) => Err(SelectFault::NoSize(NoSize {
            cause: Cause::Frame,
            number,
        })),
        Err(FrameFault::NoMemory) => Err(SelectFault::NoMemory),
    }
}

/// The code of a body with this frame.
pub fn with_frame(alloc: Global, b: &FlatBody, f: &Frame) -> Result<Code, SelectFault>
    requires params { b.now.params ≤ 8 }
    requires arguments { All HasFewIn b.now.blocks }
    ensures code { IfOk result (λ c. c ≡ code_with f.now b.now) }
    ensures fits { IfOk result (λ c. 4 * length (code_with f.now b.now) ≤ LARGEST_CODE) }
    ensures items { IfOk result (λ c. All IsItem (code_with f.now b.now)) }
    ensures refused { IfErr result (λ e. IsTooLong (4 * length (code_with f.now b.now)) e) }
{
    let mut code = CodeBuilder::new(alloc);
    push_prologue(&mut code, f, b.params)?;
    let blocks = b.blocks.as_slice();
    let incoming = Incoming::of_blocks(alloc, blocks)?;
    let heads = push_blocks(alloc, &mut code, f, &incoming, blocks)?;
    let choice = settle(alloc, &heads, code.as_slice())?;
    if choice.items() > MOST_ITEMS {
        return Err(SelectFault::NoSize(NoSize {
            cause: Cause::Code,
            number: (choice.items() as u64).saturating_mul(4),
        }));
    }
    let items = items(alloc, &heads, code.as_slice(), &choice)?;
    Ok(Code::of(items))
}

/// Appends what opens the frame and keeps the parameters.
fn push_prologue(code: &mut CodeBuilder, f: &Frame, params: u32) -> Result<(), NoMemory>
    requires { params ≤ 8 }
    ensures { OnOk result (code.new ≡ code.old ++ prologue f.now params) }
{
    push_open_frame(code, f.bytes())?;
    push_parameters(code, f, params)
}

fn push_parameters(code: &mut CodeBuilder, f: &Frame, params: u32) -> Result<(), NoMemory>
    requires { params ≤ 8 }
    ensures { OnOk result (code.new ≡ code.old ++ keep_parameters f.now params) }
{
    for p in 0..params {
        push_store(code, f, X::new(10 + p as u8), RegId(p))?;
    }
    Ok(())
}

/// Appends all blocks, and answers at which draft each begins.
fn push_blocks(
    alloc: Global,
    code: &mut CodeBuilder,
    f: &Frame,
    incoming: &Incoming,
    blocks: &[FlatBlock],
) -> Result<Vec<usize>, NoMemory>
    requires calls { All HasFewIn blocks.now }
    requires incoming { HasIncoming incoming.now blocks.now }
    ensures code { OnOk result (code.new ≡ code.old ++ blocks_from f.now blocks.now 0 blocks.now) }
    ensures heads { IfOk result (λ heads. heads.items ≡ heads_from f.now blocks.now 0 (length code.old) blocks.now) }
{
    let mut heads = Vec::new(alloc);
    for (n, block) in blocks.iter().enumerate() {
        heads.push(code.len())?;
        push_block(alloc, code, f, incoming, blocks, n, block)?;
    }
    Ok(heads)
}

fn push_block(
    alloc: Global,
    code: &mut CodeBuilder,
    f: &Frame,
    incoming: &Incoming,
    blocks: &[FlatBlock],
    n: usize,
    b: &FlatBlock,
) -> Result<(), NoMemory>
    requires calls { HasFewIn b.now }
    requires incoming { HasIncoming incoming.now blocks.now }
    ensures { OnOk result (code.new ≡ code.old ++ block f.now blocks.now n b.now) }
{
    push_head(code, f, b.phis.as_slice())?;
    push_instrs(code, f, b.code.as_slice())?;
    push_before_end(alloc, code, f, incoming, blocks, n, &b.end)?;
    push_end(code, f, n, &b.end)
}

fn push_instrs(code: &mut CodeBuilder, f: &Frame, instrs: &[FlatInstr]) -> Result<(), NoMemory>
    requires { All HasFewArguments instrs.now }
    ensures { OnOk result (code.new ≡ code.old ++ flat_map (instr f.now) instrs.now) }
{
    for i in instrs {
        push_instr(code, f, i)?;
    }
    Ok(())
}

/// The distance in bytes from one item to another.
fn distance(at: usize, to: usize) -> i32
    requires at { at ≤ MOST_ITEMS }
    requires to { to ≤ MOST_ITEMS }
    ensures { result ≡ distance (4 * at) (4 * to) }
{
    (4 * to) as i32 - (4 * at) as i32
}

fn push_jump(items: &mut Vec<Item>, at: usize, to: usize) -> Result<(), NoMemory>
    requires at { at ≤ MOST_ITEMS }
    requires to { to ≤ MOST_ITEMS }
    ensures { OnOk result (items.new.items ≡ items.old.items ++ jump (4 * at) (4 * to) ∷ []) }
{
    items.push(Item::Word(Rv::Jal(X::ZERO, distance(at, to))))?;
    Ok(())
}

fn branch(test: Test, r: X, q: X, distance: i32) -> Rv
    ensures { result ≡ branch test r q distance }
{
    match test {
        Test::Equal => Rv::Beq(r, q, distance),
        Test::NotEqual => Rv::Bne(r, q, distance),
    }
}

fn opposite(test: Test) -> Test
    ensures { result ≡ opposite test }
{
    match test {
        Test::Equal => Test::NotEqual,
        Test::NotEqual => Test::Equal,
    }
}

/// Appends a short branch.
fn push_short(
    items: &mut Vec<Item>,
    test: Test,
    r: X,
    q: X,
    at: usize,
    to: usize,
) -> Result<(), NoMemory>
    requires at { at ≤ MOST_ITEMS }
    requires to { to ≤ MOST_ITEMS }
    ensures { OnOk result (items.new.items ≡ items.old.items ++ branch_items false test r q (4 * at) (4 * to)) }
{
    items.push(Item::Word(branch(test, r, q, distance(at, to))))?;
    Ok(())
}

/// Appends a long branch.
fn push_long(
    items: &mut Vec<Item>,
    test: Test,
    r: X,
    q: X,
    at: usize,
    to: usize,
) -> Result<(), NoMemory>
    requires at { at < MOST_ITEMS }
    requires to { to ≤ MOST_ITEMS }
    ensures { OnOk result (items.new.items ≡ items.old.items ++ branch_items true test r q (4 * at) (4 * to)) }
{
    items.push(Item::Word(branch(opposite(test), r, q, 8)))?;
    push_jump(items, at + 1, to)
}

/// Appends a branch, as this draft, to a block.
fn push_branch(
    items: &mut Vec<Item>,
    choice: &Choice,
    k: usize,
    test: Test,
    r: X,
    q: X,
    to: usize,
) -> Result<(), NoMemory>
    requires few { length choice.now + count_true choice.now ≤ MOST_ITEMS }
    requires within { k < length choice.now }
    requires to { to ≤ length choice.now }
    ensures { OnOk result (items.new.items ≡ items.old.items ++ branch_items (is_long choice.now k) test r q (place choice.now k) (place choice.now to)) }
{
    if choice.is_long(k) {
        push_long(items, test, r, q, choice.item(k), choice.item(to))
    } else {
        push_short(items, test, r, q, choice.item(k), choice.item(to))
    }
}

/// Appends the items of a draft, of these drafts.
fn push_items(
    items: &mut Vec<Item>,
    heads: &[usize],
    drafts: &[Draft],
    choice: &Choice,
    k: usize,
    draft: Draft,
) -> Result<(), NoMemory>
    requires same { length drafts.now ≡ length choice.now }
    requires few { length drafts.now + count_true choice.now ≤ MOST_ITEMS }
    requires within { k < length drafts.now }
    requires heads { All (λ h. h ≤ length drafts.now) heads.now }
    ensures { OnOk result (items.new.items ≡ items.old.items ++ draft_items (λ n. place choice.now (head_in heads.now (length drafts.now) n)) (is_long choice.now k) (place choice.now k) draft) }
{
    let end = drafts.len();
    match draft {
        Draft::Fixed(item) => {
            items.push(item)?;
            Ok(())
        }
        Draft::Jump(to) => { push_jump(items, choice.item(k), choice.item(head(heads, end, to))) }
        Draft::Near(test, r, q, to) => {
            push_branch(items, choice, k, test, r, q, head(heads, end, to))
        }
    }
}

/// The items that these drafts become, under a choice of long branches.
fn items(
    alloc: Global,
    heads: &[usize],
    drafts: &[Draft],
    choice: &Choice,
) -> Result<Vec<Item>, NoMemory>
    requires same { length drafts.now ≡ length choice.now }
    requires few { length drafts.now + count_true choice.now ≤ MOST_ITEMS }
    requires heads { All (λ h. h ≤ length drafts.now) heads.now }
    ensures { IfOk result (λ items. items.items ≡ items_of (head_in heads.now (length drafts.now)) choice.now drafts.now) }
{
    let mut items = Vec::new(alloc);
    for (k, draft) in drafts.iter().enumerate() {
        push_items(&mut items, heads, drafts, choice, k, *draft)?;
    }
    Ok(items)
}
