ghost use Rattle.std.specs.Prelude.{◌≡◌, ◌++◌, ◌∷◌, [], is_some, IfOk, OnOk};
ghost use Rattle.oi_base.specs.declared.ids.FuncId as func_ids;
ghost use Rattle.call_graph.specs.Sites.{site_of};
ghost use Rattle.site_inliner.specs.Placed.{Whole, code_end, code_regs, next_block, block_regs, firsts, lasts, counted, if_result};
ghost use Rattle.site_inliner.specs.Points.{point, HasExtents};

use crate::extents::sum;
use crate::locals::Locals;
use crate::points::Point;
use ir_core::{Block, Instr, Op, Param};
use oi_base::NoMemory;
use std::alloc::Global;

/// The numbers of a function's registers, and of the first and the last parts of its blocks, in the body in which it is placed.
#[derive(Drop)]
pub struct Tables {
    pub regs: Vec<u32>,
    pub firsts: Vec<u32>,
    pub lasts: Vec<u32>,
}

/// Whether an instruction is a call of a function that the module defines.
pub fn is_site(locals: &Locals<'_>, instr: &Instr) -> bool
    ensures { (f : func_ids.FuncId) → result ≡ is_some (site_of locals.now.source.funcs f instr.now) }
{
    match &instr.op {
        Op::Call(_, name, _) => locals.is_defined(*name),
        _ => false,
    }
}

/// The tables of a function whose parameters begin at a register, and whose text begins at a point.
pub fn tables_at(
    alloc: Global,
    locals: &Locals<'_>,
    first: u32,
    at: Point<'_>,
) -> Result<Tables, NoMemory>
    requires extents { HasExtents locals.now.source at }
    ensures regs { (all : Whole) (f : func_ids.FuncId) → IfOk result (λ t. t.regs.items ≡ counted first locals.now.func.params ++ block_regs locals.now.source.funcs f (point locals.now.source all at.entry) locals.now.func.blocks) }
    ensures firsts { (all : Whole) (f : func_ids.FuncId) → IfOk result (λ t. t.firsts.items ≡ firsts locals.now.source.funcs f (point locals.now.source all at.entry) locals.now.func.blocks) }
    ensures lasts { (all : Whole) (f : func_ids.FuncId) → IfOk result (λ t. t.lasts.items ≡ lasts locals.now.source.funcs f (point locals.now.source all at.entry) locals.now.func.blocks) }
{
    let regs = param_regs(alloc, first, locals.func().params.as_slice())?;
    let mut tables = Tables {
        regs,
        firsts: Vec::new(alloc),
        lasts: Vec::new(alloc),
    };
    number_blocks(locals, locals.func().blocks.as_slice(), at, &mut tables)?;
    Ok(tables)
}

/// The numbers of parameters, of which the first is given.
fn param_regs(alloc: Global, first: u32, params: &[Param]) -> Result<Vec<u32>, NoMemory>
    ensures { IfOk result (λ regs. regs.items ≡ counted first params.now) }
{
    let mut regs = Vec::new(alloc);
    let mut reg = first;
    for param in params {
        regs.push(reg)?;
        reg = sum(reg, 1)?;
    }
    Ok(regs)
}

fn number_blocks(
    locals: &Locals<'_>,
    blocks: &[Block],
    start: Point<'_>,
    tables: &mut Tables,
) -> Result<(), NoMemory>
    requires { HasExtents locals.now.source start }
    ensures regs { (all : Whole) (f : func_ids.FuncId) → OnOk result (tables.new.regs.items ≡ tables.old.regs.items ++ block_regs locals.now.source.funcs f (point locals.now.source all start.entry) blocks.now) }
    ensures firsts { (all : Whole) (f : func_ids.FuncId) → OnOk result (tables.new.firsts.items ≡ tables.old.firsts.items ++ firsts locals.now.source.funcs f (point locals.now.source all start.entry) blocks.now) }
    ensures lasts { (all : Whole) (f : func_ids.FuncId) → OnOk result (tables.new.lasts.items ≡ tables.old.lasts.items ++ lasts locals.now.source.funcs f (point locals.now.source all start.entry) blocks.now) }
{
    let mut at = start;
    for block in blocks {
        at = number_block(locals, block, at, tables)?;
    }
    Ok(())
}

/// Adds the numbers of a block, and gives the begin of the next one.
fn number_block<'a>(
    locals: &Locals<'_>,
    block: &Block,
    start: Point<'a>,
    tables: &mut Tables,
) -> Result<Point<'a>, NoMemory>
    requires { HasExtents locals.now.source start }
    ensures point { (all : Whole) (f : func_ids.FuncId) → IfOk result (λ q. point locals.now.source all q ≡ next_block locals.now.source.funcs f (point locals.now.source all start.entry) block.now) }
    ensures extents { IfOk result (HasExtents locals.now.source) }
    ensures regs { (all : Whole) (f : func_ids.FuncId) → OnOk result (tables.new.regs.items ≡ tables.old.regs.items ++ code_regs locals.now.source.funcs f (point locals.now.source all start.entry) block.now.code) }
    ensures firsts { OnOk result (tables.new.firsts.items ≡ tables.old.firsts.items ++ start.entry.block ∷ []) }
    ensures lasts { (all : Whole) (f : func_ids.FuncId) → OnOk result (tables.new.lasts.items ≡ tables.old.lasts.items ++ (code_end locals.now.source.funcs f (point locals.now.source all start.entry) block.now.code).block ∷ []) }
{
    tables.firsts.push(start.block)?;
    let end = number_code(locals, block, start, &mut tables.regs)?;
    tables.lasts.push(end.block)?;
    end.next_block()
}

fn number_code<'a>(
    locals: &Locals<'_>,
    block: &Block,
    start: Point<'a>,
    regs: &mut Vec<u32>,
) -> Result<Point<'a>, NoMemory>
    requires { HasExtents locals.now.source start }
    ensures point { (all : Whole) (f : func_ids.FuncId) → IfOk result (λ q. point locals.now.source all q ≡ code_end locals.now.source.funcs f (point locals.now.source all start.entry) block.now.code) }
    ensures extents { IfOk result (HasExtents locals.now.source) }
    ensures regs { (all : Whole) (f : func_ids.FuncId) → OnOk result (regs.new.items ≡ regs.old.items ++ code_regs locals.now.source.funcs f (point locals.now.source all start.entry) block.now.code) }
{
    let mut at = start;
    for instr in block.code.as_slice() {
        let past = at.past(is_site(locals, instr))?;
        push_result(regs, past.reg, instr)?;
        at = past.written(instr.result)?;
    }
    Ok(at)
}

/// Adds a number where an instruction has a result.
fn push_result(regs: &mut Vec<u32>, reg: u32, instr: &Instr) -> Result<(), NoMemory>
    ensures { OnOk result (regs.new.items ≡ regs.old.items ++ if_result reg instr.now.result) }
{
    if instr.result.is_some() {
        regs.push(reg)?;
    }
    Ok(())
}
