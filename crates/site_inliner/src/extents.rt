ghost use Rattle.std.specs.Prelude.{◌≡◌, ◌+◌, ◌++◌, length, [], IfOk, OnOk};
ghost use Rattle.ir_core.specs.Plain.{registers, results};
ghost use Rattle.std.specs.List.{cons_option};
ghost use Rattle.site_inliner.specs.Extents.{extent, extents, own_extent};

use ir_core::{Block, Func, Instr, Module};
use oi_base::{FuncId, NoMemory};
use shapes::Shape;
use std::alloc::Global;

/// How much the body of a shape takes: its registers, its blocks, and the functions that stand in the shape.
#[derive(Clone, Copy)]
pub struct Extent {
    pub regs: u32,
    pub blocks: u32,
    pub shapes: usize,
}

/// The extents of a shape and of all shapes in it, each before those in it.
pub fn extents_of(alloc: Global, m: &Module, shape: &Shape) -> Result<Vec<Extent>, NoMemory>
    ensures { IfOk result (λ es. es.items ≡ extents m.now shape.now) }
{
    let mut all = Vec::new(alloc);
    add_extents(m, shape, &mut all)?;
    Ok(all)
}

fn add_extents(m: &Module, shape: &Shape, all: &mut Vec<Extent>) -> Result<Extent, NoMemory>
    ensures added { OnOk result (all.new.items ≡ all.old.items ++ extents m.now shape.now) }
    ensures extent { IfOk result (λ e. e ≡ extent m.now shape.now) }
{
    let at = all.len();
    let mut total = own_extent(m, shape.func())?;
    all.push(total)?;
    let inlined = shape.inlined();
    for entry in inlined {
        let callee: &Shape = &entry.1;
        let inner = add_extents(m, callee, all)?;
        total = with_callee(total, inner)?;
    }
    all[at] = total;
    Ok(total)
}

/// What a function takes by itself.
fn own_extent(m: &Module, f: FuncId) -> Result<Extent, NoMemory>
    ensures { IfOk result (λ e. e ≡ own_extent m.now f) }
{
    match m.funcs.get(f.0 as usize) {
        Some(func) => Ok(Extent {
            regs: number(register_count(func)?)?,
            blocks: number(func.blocks.len())?,
            shapes: 1,
        }),
        None => Ok(Extent {
            regs: 0,
            blocks: 0,
            shapes: 1,
        }),
    }
}

/// With a callee in place of a call, which cuts a block in two.
fn with_callee(so_far: Extent, inner: Extent) -> Result<Extent, NoMemory>
    ensures regs { IfOk result (λ e. e.regs ≡ so_far.regs + inner.regs) }
    ensures blocks { IfOk result (λ e. e.blocks ≡ so_far.blocks + inner.blocks + 1) }
    ensures shapes { IfOk result (λ e. e.shapes ≡ so_far.shapes + inner.shapes) }
{
    Ok(Extent {
        regs: sum(so_far.regs, inner.regs)?,
        blocks: sum(sum(so_far.blocks, inner.blocks)?, 1)?,
        shapes: total(so_far.shapes, inner.shapes)?,
    })
}

/// How many registers a function has.
fn register_count(f: &Func) -> Result<usize, NoMemory>
    ensures { IfOk result (λ n. n ≡ length (registers f.now)) }
{
    let mut count = f.params.len();
    for block in f.blocks.as_slice() {
        count = total(count, result_count(block)?)?;
    }
    Ok(count)
}

fn result_count(b: &Block) -> Result<usize, NoMemory>
    ensures { IfOk result (λ n. n ≡ length (results b.now)) }
{
    let mut count: usize = 0;
    for instr in b.code.as_slice() {
        count = with_result(count, instr)?;
    }
    Ok(count)
}

fn with_result(count: usize, instr: &Instr) -> Result<usize, NoMemory>
    ensures { IfOk result (λ n. n ≡ count + length (cons_option instr.now.result [])) }
{
    match instr.result {
        Some(_) => total(count, 1),
        None => Ok(count),
    }
}

fn total(a: usize, b: usize) -> Result<usize, NoMemory>
    ensures { IfOk result (λ n. n ≡ a + b) }
{
    match a.checked_add(b) {
        Some(n) => Ok(n),
        None => Err(NoMemory),
    }
}

/// A number of 32 bits.
pub fn number(n: usize) -> Result<u32, NoMemory>
    ensures { IfOk result (λ k. k ≡ n) }
{
    if n > u32::MAX as usize {
        return Err(NoMemory);
    }
    Ok(n as u32)
}

/// A sum of 32 bits.
pub fn sum(a: u32, b: u32) -> Result<u32, NoMemory>
    ensures { IfOk result (λ n. n ≡ a + b) }
{
    match a.checked_add(b) {
        Some(n) => Ok(n),
        None => Err(NoMemory),
    }
}
