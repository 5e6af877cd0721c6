ghost use Rattle.std.specs.Prelude.{◌≡◌};
ghost use Rattle.module_rules.specs.SameTypes.{same_width, same_type, same_types};

use ir_core::IrType;
use oi_base::Width;

/// Whether two types are written alike.
#[cycle(types)]
pub fn same_type(t: &IrType, u: &IrType) -> bool
    ensures { result ≡ same_type t.now u.now }
{
    match (t, u) {
        (IrType::Void, IrType::Void) | (IrType::Ptr, IrType::Ptr) => true,
        (IrType::Int(v), IrType::Int(w)) => same_width(*v, *w),
        (IrType::Array(k, item), IrType::Array(l, other)) => {
            *k == *l && same_type(item.get(), other.get())
        }
        (IrType::Struct(types), IrType::Struct(others)) => {
            same_types(types.as_slice(), others.as_slice())
        }
        (IrType::Named(x), IrType::Named(y)) => x.0 == y.0,
        _ => false,
    }
}

#[cycle(types)]
#[tactic(auto, using(crate::proofs::SameTypeLaws::not_as_many))]
fn same_types(types: &[IrType], others: &[IrType]) -> bool
    ensures { result ≡ same_types types.now others.now }
{
    if types.len() != others.len() {
        return false;
    }
    for k in 0..types.len() {
        if !same_type(&types[k], &others[k]) {
            return false;
        }
    }
    true
}

/// Whether two widths are one.
pub fn same_width(v: Width, w: Width) -> bool
    ensures { result ≡ same_width v w }
{
    v == w
}
