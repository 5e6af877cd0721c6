ghost use Rattle.std.specs.Prelude.{◌≡◌, IfOk, reverse};

use oi_base::Items;
use std::alloc::{AllocError, Global};

/// A list the other way round, so that its elements are popped in their order.
pub fn reversed<T: Drop>(alloc: Global, items: Items<T>) -> Result<Items<T>, AllocError>
    ensures { IfOk result (λ new. new ≡ reverse items) }
{
    let mut left = items;
    let mut new = Items::new(alloc);
    while let Some(item) = left.pop() {
        new.push(item)?;
    }
    Ok(new)
}
