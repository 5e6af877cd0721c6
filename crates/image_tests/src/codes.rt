ghost use Rattle.std.specs.Prelude.{IfOk, IsTrue, All};
ghost use Rattle.ir_core.specs.WellFormed.{IsWellFormed};
ghost use Rattle.rv_select.specs.Code.{ArePaired};
ghost use Rattle.image_layout.specs.Codes.{AreCodes};
ghost use Rattle.image_tests.specs.Words.{IsWord};

use ir_core::{FlatBlock, FlatBody, FlatEnd, FlatOp, Verified};
use oi_base::{FuncId, Items, NoMemory};
use rv_select::{Code, Item, select};
use std::alloc::Global;
use std::test::Fail;

/// A body that returns 0.
fn returning(alloc: Global) -> Result<FlatBody, NoMemory>
    ensures { IfOk result IsWellFormed }
{
    let mut blocks = Items::new(alloc);
    let block = FlatBlock {
        phis: Items::new(alloc),
        code: Items::new(alloc),
        end: FlatEnd::Ret(Some(FlatOp::Word(0))),
    };
    blocks.push(block)?;
    Ok(FlatBody {
        params: 0,
        regs: 0,
        blocks,
    })
}

fn is_word(item: Item) -> bool
    ensures { IsTrue result → IsWord item }
{
    match item {
        Item::Word(_) => true,
        _ => false,
    }
}

fn are_words(items: &[Item]) -> bool
    ensures { IsTrue result → All IsWord items.now }
{
    for item in items {
        if !is_word(*item) {
            return false;
        }
    }
    true
}

/// The code of the body.
fn code(alloc: Global) -> Result<Code, Fail>
    ensures words { IfOk result (λ c. All IsWord c) }
    ensures paired { IfOk result (λ c. ArePaired c) }
{
    let body = returning(alloc)?;
    match select(alloc, &body) {
        Ok(code) => {
            if are_words(code.as_slice()) {
                Ok(code)
            } else {
                Err("no words")?
            }
        }
        Err(_) => Err("no code")?,
    }
}

/// This code for each function of a module.
pub fn codes(alloc: Global, v: &Verified) -> Result<Vec<(FuncId, Code)>, Fail>
    ensures { IfOk result (λ codes. AreCodes v.now codes.items) }
{
    let mut codes = Vec::new(alloc);
    for f in 0..v.module().funcs.len() as u32 {
        codes.push((FuncId(f), code(alloc)?))?;
    }
    Ok(codes)
}
