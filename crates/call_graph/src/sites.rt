ghost use Rattle.std.specs.Prelude.{◌≡◌, ◌++◌, OnOk, IfOk};
ghost use Rattle.call_graph.specs.Sites.{site_of, block_sites, func_sites, sites_from, all_sites};

use crate::functions::{Functions, func_id};
use ir_core::{Block, Func, Instr, Op};
use oi_base::{FuncId, NoMemory, Place};
use std::alloc::Global;

/// A call of a function that the module defines.
#[derive(Clone, Copy)]
pub struct Site {
    pub caller: FuncId,
    pub callee: FuncId,
    pub place: Place,
}

/// The sites of all functions, in text order.
pub fn sites_of(alloc: Global, functions: &Functions<'_>) -> Result<Vec<Site>, NoMemory>
    ensures { IfOk result (λ sites. sites.items ≡ all_sites functions.now) }
{
    let mut sites = Vec::new(alloc);
    for (f, func) in functions.as_slice().iter().enumerate() {
        push_func_sites(functions, func_id(f)?, func, &mut sites)?;
    }
    Ok(sites)
}

fn push_func_sites(
    functions: &Functions<'_>,
    caller: FuncId,
    func: &Func,
    sites: &mut Vec<Site>,
) -> Result<(), NoMemory>
    ensures { OnOk result (sites.new.items ≡ sites.old.items ++ func_sites functions.now caller func.now) }
{
    for block in func.blocks.as_slice() {
        push_block_sites(functions, caller, block, sites)?;
    }
    Ok(())
}

fn push_block_sites(
    functions: &Functions<'_>,
    caller: FuncId,
    block: &Block,
    sites: &mut Vec<Site>,
) -> Result<(), NoMemory>
    ensures { OnOk result (sites.new.items ≡ sites.old.items ++ block_sites functions.now caller block.now) }
{
    for instr in block.code.as_slice() {
        if let Some(site) = site_of(functions, caller, instr) {
            sites.push(site)?;
        }
    }
    Ok(())
}

/// An instruction as a site, if it is one.
fn site_of(functions: &Functions<'_>, caller: FuncId, instr: &Instr) -> Option<Site>
    ensures { result ≡ site_of functions.now caller instr.now }
{
    let Op::Call(_, name, _) = &instr.op else {
        return None;
    };
    let callee = functions.number(*name)?;
    Some(Site {
        caller,
        callee,
        place: instr.place,
    })
}
