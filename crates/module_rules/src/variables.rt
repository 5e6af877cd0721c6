ghost use Rattle.std.specs.Prelude.{◌≡◌, map, IfOk};
ghost use Rattle.module_rules.specs.Faults.{numbers_of, global_number};

use crate::numbers::Numbers;
use ir_core::GlobalVar;
use oi_base::NoMemory;
use std::alloc::Global;

/// The names of the module's global variables.
pub fn global_numbers(alloc: Global, globals: &[GlobalVar]) -> Result<Numbers, NoMemory>
    ensures { IfOk result (λ ns. ns ≡ numbers_of (map global_number globals.now)) }
{
    let mut numbers = Numbers::new(alloc);
    for global in globals {
        numbers.add(global.name.0)?;
    }
    Ok(numbers)
}
