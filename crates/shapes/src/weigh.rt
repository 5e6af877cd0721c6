ghost use Rattle.std.specs.Prelude.{◌≡◌, ◌+◌, min, if◌then◌else◌};
ghost use Rattle.ir_core.specs.Weight as bodies;
ghost use Rattle.ir_core.specs.Plain.{plain_body};
ghost use Rattle.ir_core.specs.Instructions.{terminator};
ghost use Rattle.ir_core.specs.declared.module.Module as modules;
ghost use Rattle.shapes.specs.Weight.{value_returns, gives_value, own_weight, call_weight};
ghost use Rattle.shapes.specs.SourceWeight.{instr_weight, code_weight};

use ir_core::{Block, End, Func, Instr, Module, Op};
use oi_base::FuncId;

/// The weight of a function's own body, with every call kept, or the greatest `u64` where it is greater.
pub(crate) fn own_weight(m: &Module, f: FuncId) -> u64
    ensures { result ≡ min (own_weight m.now f) 18446744073709551615 }
{
    match m.funcs.get(f.0 as usize) {
        Some(func) => weight_of_func(func),
        None => 0,
    }
}

/// What weighs more than a function's body where it takes the place of a call: a copy into each parameter, and an
/// entry in the phi of the results for each block that returns one.
pub(crate) fn call_weight(m: &Module, f: FuncId) -> u64
    ensures { result ≡ min (call_weight m.now f) 18446744073709551615 }
{
    match m.funcs.get(f.0 as usize) {
        Some(func) => (func.params.len() as u64).saturating_add(value_returns(func)),
        None => 0,
    }
}

fn weight_of_func(f: &Func) -> u64
    ensures { (m : modules.Module) → result ≡ min (bodies.weight (plain_body m f.now)) 18446744073709551615 }
{
    let mut total: u64 = 0;
    for block in f.blocks.as_slice() {
        total = total.saturating_add(weight_of_block(block));
    }
    total
}

fn weight_of_block(b: &Block) -> u64
    ensures { (m : modules.Module) → result ≡ min (code_weight m b.now) 18446744073709551615 }
{
    let mut total = weight_of_end(&b.end);
    for instr in b.code.as_slice() {
        total = total.saturating_add(weight_of_instr(instr));
    }
    total
}

fn weight_of_instr(i: &Instr) -> u64
    ensures { (m : modules.Module) → result ≡ min (instr_weight m i.now) 18446744073709551615 }
{
    match (i.result, &i.op) {
        (Some(_), Op::Phi(_, entries)) => entries.len() as u64,
        (None, Op::Phi(_, _)) => 0,
        (_, Op::Store(_, _, _)) | (_, Op::Call(_, _, _)) | (Some(_), _) => 1,
        (None, _) => 0,
    }
}

fn weight_of_end(end: &End) -> u64
    ensures { (m : modules.Module) → result ≡ min (bodies.end_weight (terminator m end.now)) 18446744073709551615 }
{
    match end {
        End::Switch(_, _, cases) => (cases.len() as u64).saturating_add(1),
        _ => 1,
    }
}

/// How many blocks return a value.
fn value_returns(f: &Func) -> u64
    ensures { (m : modules.Module) → result ≡ min (value_returns (plain_body m f.now)) 18446744073709551615 }
{
    let mut count: u64 = 0;
    for block in f.blocks.as_slice() {
        if returns_value(&block.end) {
            count = count.saturating_add(1);
        }
    }
    count
}

fn returns_value(end: &End) -> bool
    ensures { (m : modules.Module) → gives_value (terminator m end.now) ≡ (if result then 1 else 0) }
{
    matches!(end, End::Ret(Some(_)))
}
