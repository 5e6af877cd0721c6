ghost use Rattle.std.specs.Prelude.{◌≡◌, ◌++◌, OnOk, IfOk};
ghost use Rattle.ir_assigned.specs.Uses as all;
ghost use Rattle.ir_core.specs.Parts.{op_values, end_values};

use crate::table::get;
use ir_core::{Block, Blocks, End, Func, LocalId, Op, Operand, Pair};
use oi_base::{NoMemory, Place};
use std::alloc::Global;

/// Something at a place that reads registers once the first `at` instructions of a block are done.
#[derive(Clone, Copy)]
pub struct Reader {
    pub block: usize,
    pub at: usize,
    pub place: Place,
}

/// A use: a register is read at a place, once the first `at` instructions of a block are done.
#[derive(Clone, Copy)]
pub struct Use {
    pub block: usize,
    pub at: usize,
    pub place: Place,
    pub local: LocalId,
}

/// All uses of registers in a function, in text order.
pub fn uses_of(alloc: Global, func: &Func, labels: &[Option<usize>]) -> Result<Vec<Use>, NoMemory>
    ensures { IfOk result (λ uses. uses.items ≡ all.all_uses labels.now func.now.blocks) }
{
    let blocks = &func.blocks;
    let mut uses = Vec::new(alloc);
    for (b, block) in blocks.as_slice().iter().enumerate() {
        push_block_uses(labels, blocks, b, block, &mut uses)?;
    }
    Ok(uses)
}

fn push_block_uses(
    labels: &[Option<usize>],
    blocks: &Blocks,
    b: usize,
    block: &Block,
    uses: &mut Vec<Use>,
) -> Result<(), NoMemory>
    ensures { OnOk result (uses.new.items ≡ uses.old.items ++ all.block_uses labels.now blocks.now b block.now) }
{
    push_code_uses(labels, blocks, b, block, uses)?;
    let reader = Reader {
        block: b,
        at: block.code.len(),
        place: block.end_place,
    };
    push_end_uses(reader, &block.end, uses)
}

fn push_code_uses(
    labels: &[Option<usize>],
    blocks: &Blocks,
    b: usize,
    block: &Block,
    uses: &mut Vec<Use>,
) -> Result<(), NoMemory>
    ensures { OnOk result (uses.new.items ≡ uses.old.items ++ all.code_uses labels.now blocks.now b 0 block.now.code) }
{
    for (at, instr) in block.code.as_slice().iter().enumerate() {
        let reader = Reader {
            block: b,
            at,
            place: instr.place,
        };
        push_op_uses(reader, &instr.op, uses)?;
        push_phi_uses(labels, blocks, instr.place, &instr.op, uses)?;
    }
    Ok(())
}

/// The uses of an instruction that is no phi.
fn push_op_uses(reader: Reader, op: &Op, uses: &mut Vec<Use>) -> Result<(), NoMemory>
    ensures { OnOk result (uses.new.items ≡ uses.old.items ++ all.op_uses reader op.now) }
{
    match op {
        Op::Phi(_, _) => Ok(()),
        _ => push_values(reader, op, uses),
    }
}

/// The uses of what an instruction reads.
fn push_values(reader: Reader, op: &Op, uses: &mut Vec<Use>) -> Result<(), NoMemory>
    ensures { OnOk result (uses.new.items ≡ uses.old.items ++ all.uses_in reader (op_values op.now)) }
{
    let mut at = 0;
    while let Some(value) = op.operand(at) {
        push_use(reader, value, uses)?;
        at += 1;
    }
    Ok(())
}

/// The uses of a phi: each entry's value is read at the end of the entry's block.
fn push_phi_uses(
    labels: &[Option<usize>],
    blocks: &Blocks,
    place: Place,
    op: &Op,
    uses: &mut Vec<Use>,
) -> Result<(), NoMemory>
    ensures { OnOk result (uses.new.items ≡ uses.old.items ++ all.phi_uses labels.now blocks.now place op.now) }
{
    let Op::Phi(_, entries) = op else {
        return Ok(());
    };
    for entry in entries.as_slice() {
        push_entry_uses(labels, blocks, place, entry, uses)?;
    }
    Ok(())
}

fn push_entry_uses(
    labels: &[Option<usize>],
    blocks: &Blocks,
    place: Place,
    entry: &Pair,
    uses: &mut Vec<Use>,
) -> Result<(), NoMemory>
    ensures { OnOk result (uses.new.items ≡ uses.old.items ++ all.entry_uses labels.now blocks.now place entry.now) }
{
    let Some(b) = get(labels, entry.from) else {
        return Ok(());
    };
    let Some(block) = blocks.get(b) else {
        return Ok(());
    };
    let reader = Reader {
        block: b,
        at: block.code.len(),
        place,
    };
    push_use(reader, &entry.value, uses)
}

fn push_end_uses(reader: Reader, end: &End, uses: &mut Vec<Use>) -> Result<(), NoMemory>
    ensures { OnOk result (uses.new.items ≡ uses.old.items ++ all.uses_in reader (end_values end.now)) }
{
    let mut at = 0;
    while let Some(value) = end.operand(at) {
        push_use(reader, value, uses)?;
        at += 1;
    }
    Ok(())
}

fn push_use(reader: Reader, value: &Operand, uses: &mut Vec<Use>) -> Result<(), NoMemory>
    ensures { OnOk result (uses.new.items ≡ uses.old.items ++ all.uses_of reader value.now) }
{
    if let Operand::Local(local) = value {
        uses.push(Use {
            block: reader.block,
            at: reader.at,
            place: reader.place,
            local: *local,
        })?;
    }
    Ok(())
}
