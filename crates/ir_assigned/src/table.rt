ghost use Rattle.std.specs.Prelude.{◌≡◌, ◌≢◌, ℕ, Some, OnOk};
ghost use Rattle.ir_assigned.specs.Names.{found};

use ir_core::LocalId;
use std::alloc::AllocError;

/// What a table by local names has for a name.
pub fn get<T: Copy>(table: &[Option<T>], name: LocalId) -> Option<T>
    ensures { result ≡ found table.now name.0 }
{
    match table.get(name.0 as usize) {
        Some(value) => *value,
        None => None,
    }
}

/// Writes what a table has for a name.
pub fn put<T: Copy + Drop>(
    table: &mut Vec<Option<T>>,
    name: LocalId,
    value: T,
) -> Result<(), AllocError>
    ensures same { OnOk result (found table.new.items name.0 ≡ Some value) }
    ensures others { OnOk result ((x : ℕ) → x ≢ name.0 → found table.new.items x ≡ found table.old.items x) }
{
    let at = name.0 as usize;
    if table.len() <= at {
        table.resize(at + 1, None)?;
    }
    table[at] = Some(value);
    Ok(())
}
