ghost use Rattle.std.specs.Prelude.{◌≡◌, [], None, map, drop, not};
ghost use Rattle.std.specs.List.{flat_map};
ghost use Rattle.ir_core.specs.declared.func.Instr.{Instr as instrs};
ghost use Rattle.module_rules.specs.First.{earliest};
ghost use Rattle.optinline.specs.Unbuilt.{is_simple, adds_or_subtracts, is_sum, returns_simple, instr_unbuilt, block_places, instr_places, block_unbuilt, main_unbuilt, func_unbuilt, global_unbuilt, unbuilt};

use ir_core::{BinOp, Block, Const, End, Func, GlobalVar, Instr, Module, Op, Operand};
use module_rules::has_main::is_main;
use module_rules::{earlier, earlier_if};
use oi_base::Place;

/// How many operations a body that is built has at most.
pub const MOST_OPS: usize = 400;

/// The first place of what isn't built yet of a module, if there is any: a global variable, a definition but `main`, a block
/// of `main` but its first, an instruction or a terminator of another form, and an operation after `MOST_OPS`.
pub fn first_unbuilt(m: &Module) -> Option<Place>
    ensures { result ≡ earliest None (unbuilt m.now) }
{
    in_funcs(
        in_globals(None, m.globals.as_slice()),
        m,
        m.funcs.as_slice(),
    )
}

fn in_globals(before: Option<Place>, globals: &[GlobalVar]) -> Option<Place>
    ensures { result ≡ earliest before (flat_map global_unbuilt globals.now) }
{
    let mut first = before;
    for global in globals {
        first = earlier(first, global.place);
    }
    first
}

fn in_funcs(before: Option<Place>, m: &Module, funcs: &[Func]) -> Option<Place>
    ensures { result ≡ earliest before (flat_map (func_unbuilt m.now) funcs.now) }
{
    let mut first = before;
    for func in funcs {
        first = in_func(first, m, func);
    }
    first
}

fn in_func(before: Option<Place>, m: &Module, f: &Func) -> Option<Place>
    ensures { result ≡ earliest before (func_unbuilt m.now f.now) }
{
    if is_main(m, f) {
        in_main(before, f.blocks.as_slice())
    } else {
        earlier(before, f.place)
    }
}

fn in_main(before: Option<Place>, blocks: &[Block]) -> Option<Place>
    ensures { result ≡ earliest before (main_unbuilt blocks.now) }
{
    in_blocks(in_further(before, blocks), blocks)
}

/// With the blocks after the first.
fn in_further(before: Option<Place>, blocks: &[Block]) -> Option<Place>
    ensures { result ≡ earliest before (flat_map block_places (drop 1 blocks.now)) }
{
    match blocks {
        [_, further @ ..] => at_blocks(before, further),
        [] => before,
    }
}

fn at_blocks(before: Option<Place>, blocks: &[Block]) -> Option<Place>
    ensures { result ≡ earliest before (flat_map block_places blocks.now) }
{
    let mut first = before;
    for block in blocks {
        first = earlier(first, block.place);
    }
    first
}

fn in_blocks(before: Option<Place>, blocks: &[Block]) -> Option<Place>
    ensures { result ≡ earliest before (flat_map block_unbuilt blocks.now) }
{
    let mut first = before;
    for block in blocks {
        first = in_block(first, block);
    }
    first
}

fn in_block(before: Option<Place>, block: &Block) -> Option<Place>
    ensures { result ≡ earliest before (block_unbuilt block.now) }
{
    let code = block.code.as_slice();
    let first = in_late(in_code(before, code), code);
    earlier_if(first, !returns_simple(&block.end), block.end_place)
}

fn in_code(before: Option<Place>, code: &[Instr]) -> Option<Place>
    ensures { result ≡ earliest before (flat_map instr_unbuilt code.now) }
{
    let mut first = before;
    for instr in code {
        first = earlier_if(first, !is_sum(&instr.op), instr.place);
    }
    first
}

/// With the operations after the first `MOST_OPS`.
#[tactic(auto, using(std::proofs::lemmas::List::drop_all))]
fn in_late(before: Option<Place>, code: &[Instr]) -> Option<Place>
    ensures { result ≡ earliest before (flat_map instr_places (drop MOST_OPS code.now)) }
{
    if code.len() <= MOST_OPS {
        return before;
    }
    let (_, late) = code.split_at(MOST_OPS);
    at_instrs(before, late)
}

fn at_instrs(before: Option<Place>, code: &[Instr]) -> Option<Place>
    ensures { result ≡ earliest before (flat_map instr_places code.now) }
{
    let mut first = before;
    for instr in code {
        first = earlier(first, instr.place);
    }
    first
}

fn is_sum(op: &Op) -> bool
    ensures { result ≡ is_sum op.now }
{
    match op {
        Op::Bin(kind, t, a, b) => {
            adds_or_subtracts(*kind) && t.is_word() && is_simple(a) && is_simple(b)
        }
        _ => false,
    }
}

fn adds_or_subtracts(kind: BinOp) -> bool
    ensures { result ≡ adds_or_subtracts kind }
{
    matches!(kind, BinOp::Add | BinOp::Sub)
}

fn is_simple(operand: &Operand) -> bool
    ensures { result ≡ is_simple operand.now }
{
    matches!(operand, Operand::Local(_) | Operand::Const(Const::Int(_)))
}

fn returns_simple(end: &End) -> bool
    ensures { result ≡ returns_simple end.now }
{
    match end {
        End::Ret(Some(v)) => v.ty.is_word() && is_simple(&v.value),
        _ => false,
    }
}
