ghost use Rattle.std.specs.Prelude.{◌≡◌, ◌∷◌, ◌++◌, [], IfOk, OnOk};

use ir_core::Short;
use oi_base::{Boxed, Items, NoMemory, Text};
use std::alloc::Global;
use std::default::MadeWith;

/// Adds an item at the end.
pub fn push<T: Drop>(items: &mut Items<T>, item: T) -> Result<(), NoMemory>
    ensures { OnOk result (items.new ≡ items.old ++ item ∷ []) }
{
    items.push(item)?;
    Ok(())
}

/// Adds an item at the end of a short list.
pub fn push_short<T: MadeWith<Global> + Drop, const N: usize>(
    items: &mut Short<T, N>,
    item: T,
) -> Result<(), NoMemory>
    ensures { OnOk result (items.new ≡ items.old ++ item ∷ []) }
{
    items.push(item)?;
    Ok(())
}

/// A value in a box.
pub fn boxed<T: Drop>(alloc: Global, value: T) -> Result<Boxed<T>, NoMemory>
    ensures { IfOk result (λ b. b ≡ value) }
{
    Ok(Boxed::new(alloc, value)?)
}

/// A copy of these bytes.
pub fn text(alloc: Global, bytes: &[u8]) -> Result<Text, NoMemory>
    ensures { IfOk result (λ t. t ≡ bytes.now) }
{
    Ok(Text::from_slice(alloc, bytes)?)
}
