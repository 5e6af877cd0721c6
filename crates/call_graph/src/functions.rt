ghost use Rattle.std.specs.Prelude.{◌≡◌, ◌≢◌, ℕ, OnOk, IfOk};
ghost use Rattle.call_graph.specs.Sites.{func_id};
ghost use Rattle.call_graph.specs.Table.{number_at, Knows};

use ir_core::{Func, SymId};
use oi_base::{FuncId, NoMemory};
use std::alloc::{AllocError, Global};
use std::marker::Model;

/// The functions that a module defines, with a table of their positions by their names.
/// Contracts see them as the list of the functions.
#[derive(Drop)]
pub struct Functions<'a> {
    funcs: &'a [Func],
    numbers: Vec<Option<FuncId>>,
}

impl<'a> Model for Functions<'a> {
    ghost use Rattle.std.specs.Prelude.{List};
    ghost use Rattle.std.specs.Coded.{coded_list};
    ghost use Rattle.ir_core.specs.declared.func.Func as func;
    ghost use Rattle.ir_core.specs.contracts.func.Func as of_func;
    ghost use Rattle.call_graph.specs.Table.{Knows};

    ghost Value = { List func.Func };

    ghost coded = { coded_list of_func.the_row.coded };

    ghost view = { λ s. s.funcs.now };

    ghost invariant = { λ s. Knows s.numbers.items s.funcs.now };
}

impl<'a> Functions<'a> {
    pub fn of(alloc: Global, funcs: &'a [Func]) -> Result<Functions<'a>, NoMemory>
        ensures { IfOk result (λ fs. fs ≡ funcs.now) }
    {
        let numbers = numbers(alloc, funcs)?;
        Ok(Functions { funcs, numbers })
    }

    pub fn as_slice(&self) -> &'a [Func]
        ensures { result.now ≡ self.now }
    {
        self.funcs
    }

    /// The function of a name.
    pub fn number(&self, name: SymId) -> Option<FuncId>
        ensures { result ≡ func_id self.now name }
    {
        match self.numbers.get(name.0 as usize) {
            Some(number) => *number,
            None => None,
        }
    }
}

/// The table of the positions.
fn numbers(alloc: Global, funcs: &[Func]) -> Result<Vec<Option<FuncId>>, NoMemory>
    ensures { IfOk result (λ table. Knows table.items funcs.now) }
{
    let mut table = Vec::new(alloc);
    let mut at = funcs.len();
    while at > 0 {
        at -= 1;
        put(&mut table, funcs[at].name, func_id(at)?)?;
    }
    Ok(table)
}

/// The position as a number; there is no room for more functions than numbers.
pub fn func_id(at: usize) -> Result<FuncId, NoMemory>
    ensures { IfOk result (λ f. f ≡ record { 0 = at }) }
{
    match u32::try_from(at) {
        Ok(n) => Ok(FuncId(n)),
        Err(_) => Err(NoMemory),
    }
}

/// Writes the position of one name.
fn put(table: &mut Vec<Option<FuncId>>, name: SymId, number: FuncId) -> Result<(), AllocError>
    ensures same { OnOk result (number_at table.new.items name.0 ≡ Some number) }
    ensures others { OnOk result ((x : ℕ) → x ≢ name.0 → number_at table.new.items x ≡ number_at table.old.items x) }
{
    let at = name.0 as usize;
    if table.len() <= at {
        table.resize(at + 1, None)?;
    }
    table[at] = Some(number);
    Ok(())
}
