ghost use Rattle.std.specs.Prelude.{◌≡◌, ◌+◌, nat_lt, min};
ghost use Rattle.ir_core.specs.declared.limits.TheConstants.{LARGEST};
ghost use Rattle.ir_core.specs.Sizes.{size, align};

use ir_core::{IrType, LARGEST, Module, align_of, size_of};

/// A type's size in bytes, and one more than the largest where it is beyond that. What has no layout has none.
pub fn size_up_to(m: &Module, t: &IrType) -> u32
    ensures { result ≡ min (size m.now.types.defs t.now) (LARGEST + 1) }
{
    if !m.types.defs.has_layout(t) {
        return 0;
    }
    match size_of(m, t) {
        Ok(size) => size,
        Err(_) => LARGEST + 1,
    }
}

/// Whether a type has more bytes than a type may have.
pub fn is_above(m: &Module, t: &IrType) -> bool
    ensures { result ≡ nat_lt LARGEST (size m.now.types.defs t.now) }
{
    size_up_to(m, t) > LARGEST
}

/// A type's alignment. What has no layout has the least.
pub fn align_or_least(m: &Module, t: &IrType) -> u32
    ensures { result ≡ align m.now.types.defs t.now }
{
    if !m.types.defs.has_layout(t) {
        return 1;
    }
    align_of(m, t)
}
