ghost use Rattle.std.specs.Prelude.{◌≡◌, None, false};
ghost use Rattle.ir_core.specs.ValidFunc.{BreaksPositions};
ghost use Rattle.module_rules.specs.First.{earliest, IsFound};
ghost use Rattle.ir_verifier.specs.Faults.{is_phi, is_alloca, is_misplaced, position_fault, position_faults};

use ir_core::{Block, Func, Op};
use module_rules::earlier;
use oi_base::Place;

/// The first phi after something else in its block, or alloca outside the entry block.
#[tactic(auto, using(crate::proofs::PositionLaws::positions_found))]
pub fn first_break(f: &Func) -> Option<Place>
    ensures found { IsFound (BreaksPositions f.now) result }
{
    first_fault(f)
}

fn first_fault(f: &Func) -> Option<Place>
    ensures { result ≡ earliest None (position_faults f.now) }
{
    let mut first = None;
    let mut is_entry = true;
    for block in f.blocks.as_slice() {
        first = in_block(first, is_entry, block);
        is_entry = false;
    }
    first
}

fn in_block(before: Option<Place>, is_entry: bool, block: &Block) -> Option<Place>
    ensures { result ≡ earliest before (position_fault is_entry block.now) }
{
    let mut first = before;
    let mut late = false;
    for instr in block.code.as_slice() {
        if is_misplaced(is_entry, late, &instr.op) {
            first = earlier(first, instr.place);
        }
        late = late || !is_phi(&instr.op);
    }
    first
}

fn is_misplaced(is_entry: bool, late: bool, op: &Op) -> bool
    ensures { result ≡ is_misplaced is_entry late op.now }
{
    is_phi(op) && late || is_alloca(op) && !is_entry
}

fn is_phi(op: &Op) -> bool
    ensures { result ≡ is_phi op.now }
{
    matches!(op, Op::Phi(_, _))
}

fn is_alloca(op: &Op) -> bool
    ensures { result ≡ is_alloca op.now }
{
    matches!(op, Op::Alloca(_, _, _))
}
