ghost use Rattle.std.specs.Prelude.{◌≡◌, ◌++◌, map, length, ◌<◌, IfOk, OnOk};
ghost use Rattle.std.specs.List.{flat_map};
ghost use Rattle.module_rules.specs.Faults.{numbers_of, with_numbers};
ghost use Rattle.site_inliner.specs.Parts.{result_numbers, block_numbers, param_number, register_numbers, label_number, func_number};

use ir_core::{Block, Func, Instr, Param};
use module_rules::Numbers;
use oi_base::NoMemory;
use std::alloc::Global;

/// The names of parameters and of results, in text order.
pub fn register_numbers(alloc: Global, f: &Func) -> Result<Numbers, NoMemory>
    ensures { IfOk result (λ ns. ns ≡ numbers_of (register_numbers f.now)) }
{
    let mut numbers = Numbers::new(alloc);
    add_params(&mut numbers, f.params.as_slice())?;
    add_blocks(&mut numbers, f.blocks.as_slice())?;
    Ok(numbers)
}

fn add_params(numbers: &mut Numbers, params: &[Param]) -> Result<(), NoMemory>
    ensures { OnOk result (numbers.new ≡ with_numbers numbers.old (map param_number params.now)) }
{
    for param in params {
        numbers.add(param.name.0)?;
    }
    Ok(())
}

fn add_blocks(numbers: &mut Numbers, blocks: &[Block]) -> Result<(), NoMemory>
    ensures { OnOk result (numbers.new ≡ with_numbers numbers.old (flat_map block_numbers blocks.now)) }
{
    for block in blocks {
        add_code(numbers, block.code.as_slice())?;
    }
    Ok(())
}

fn add_code(numbers: &mut Numbers, code: &[Instr]) -> Result<(), NoMemory>
    ensures { OnOk result (numbers.new ≡ with_numbers numbers.old (flat_map result_numbers code.now)) }
{
    for instr in code {
        add_result(numbers, instr)?;
    }
    Ok(())
}

fn add_result(numbers: &mut Numbers, instr: &Instr) -> Result<(), NoMemory>
    ensures { OnOk result (numbers.new ≡ with_numbers numbers.old (result_numbers instr.now)) }
{
    if let Some(register) = instr.result {
        numbers.add(register.0)?;
    }
    Ok(())
}

/// The names of blocks.
pub fn label_numbers(alloc: Global, blocks: &[Block]) -> Result<Numbers, NoMemory>
    ensures { IfOk result (λ ns. ns ≡ numbers_of (map label_number blocks.now)) }
{
    let mut numbers = Numbers::new(alloc);
    for block in blocks {
        numbers.add(block.label.0)?;
    }
    Ok(numbers)
}

/// The names of definitions.
pub fn func_numbers(alloc: Global, funcs: &[Func]) -> Result<Numbers, NoMemory>
    ensures { IfOk result (λ ns. ns ≡ numbers_of (map func_number funcs.now)) }
{
    let mut numbers = Numbers::new(alloc);
    for func in funcs {
        numbers.add(func.name.0)?;
    }
    Ok(numbers)
}

/// So few names that each has a number of 32 bits.
pub fn few(numbers: Numbers) -> Result<Numbers, NoMemory>
    ensures same { IfOk result (λ ns. ns ≡ numbers) }
    ensures few { IfOk result (λ ns. length ns < 4294967296) }
{
    if numbers.as_slice().len() > u32::MAX as usize {
        return Err(NoMemory);
    }
    Ok(numbers)
}
