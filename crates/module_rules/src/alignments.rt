ghost use Rattle.std.specs.Prelude.{◌≡◌, None};
ghost use Rattle.std.specs.List.{flat_map};
ghost use Rattle.ir_core.specs.ValidTypes.{BreaksAlignments};
ghost use Rattle.module_rules.specs.First.{earliest, IsFound};
ghost use Rattle.module_rules.specs.AlignFaults.{is_align, is_good_align, promises_well, global_align_fault, code_align_faults, func_align_faults, align_faults};

use crate::first::earlier_if;
use crate::measure::align_or_least;
use ir_core::{Block, Func, GlobalVar, IrType, Module, Op};
use oi_base::Place;

/// The first `align` of a global, an alloca, a load or a store that is none of 1, 2, 4, 8 and 16, or below its type's own.
#[tactic(auto, using(crate::proofs::AlignLaws::alignments_found))]
pub fn first_break(m: &Module) -> Option<Place>
    ensures found { IsFound (BreaksAlignments m.now) result }
{
    first_fault(m)
}

fn first_fault(m: &Module) -> Option<Place>
    ensures { result ≡ earliest None (align_faults m.now) }
{
    in_funcs(
        in_globals(None, m, m.globals.as_slice()),
        m,
        m.funcs.as_slice(),
    )
}

fn in_globals(before: Option<Place>, m: &Module, globals: &[GlobalVar]) -> Option<Place>
    ensures { result ≡ earliest before (flat_map (global_align_fault m.now.types.defs) globals.now) }
{
    let mut first = before;
    for global in globals {
        let is_good = is_good_align(m, &global.ty, global.align);
        first = earlier_if(first, !is_good, global.place);
    }
    first
}

fn in_funcs(before: Option<Place>, m: &Module, funcs: &[Func]) -> Option<Place>
    ensures { result ≡ earliest before (flat_map (func_align_faults m.now.types.defs) funcs.now) }
{
    let mut first = before;
    for func in funcs {
        first = in_blocks(first, m, func.blocks.as_slice());
    }
    first
}

fn in_blocks(before: Option<Place>, m: &Module, blocks: &[Block]) -> Option<Place>
    ensures { result ≡ earliest before (flat_map (code_align_faults m.now.types.defs) blocks.now) }
{
    let mut first = before;
    for block in blocks {
        first = in_code(first, m, block);
    }
    first
}

fn in_code(before: Option<Place>, m: &Module, block: &Block) -> Option<Place>
    ensures { result ≡ earliest before (code_align_faults m.now.types.defs block.now) }
{
    let mut first = before;
    for instr in block.code.as_slice() {
        first = earlier_if(first, !promises_well(m, &instr.op), instr.place);
    }
    first
}

fn promises_well(m: &Module, op: &Op) -> bool
    ensures { result ≡ promises_well m.now.types.defs op.now }
{
    match op {
        Op::Alloca(t, _, align) | Op::Load(t, _, align) => is_good_align(m, t, *align),
        Op::Store(a, _, align) => is_good_align(m, &a.ty, *align),
        _ => true,
    }
}

fn is_good_align(m: &Module, t: &IrType, align: Option<u32>) -> bool
    ensures { result ≡ is_good_align m.now.types.defs t.now align }
{
    match align {
        Some(align) => is_align(align) && align_or_least(m, t) <= align,
        None => true,
    }
}

fn is_align(align: u32) -> bool
    ensures { result ≡ is_align align }
{
    align == 1 || align == 2 || align == 4 || align == 8 || align == 16
}
