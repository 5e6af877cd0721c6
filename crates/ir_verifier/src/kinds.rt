ghost use Rattle.std.specs.Prelude.{◌≡◌};
ghost use Rattle.ir_verifier.specs.CallFaults.{same_kind, same_kinds};

use ir_core::{IrType, Param, TypedOperand};
use module_rules::same_width;

/// Whether both types are `void`, both `ptr`, or both integers of one width.
pub fn same_kind(t: &IrType, u: &IrType) -> bool
    ensures { result ≡ same_kind t.now u.now }
{
    match (t, u) {
        (IrType::Void, IrType::Void) | (IrType::Ptr, IrType::Ptr) => true,
        (IrType::Int(v), IrType::Int(w)) => same_width(*v, *w),
        _ => false,
    }
}

/// Whether the arguments are as many as the parameters, and of their kinds.
#[tactic(auto, using(crate::proofs::KindLaws::not_as_many))]
pub fn same_kinds(params: &[Param], arguments: &[TypedOperand]) -> bool
    ensures { result ≡ same_kinds params.now arguments.now }
{
    if params.len() != arguments.len() {
        return false;
    }
    for k in 0..params.len() {
        if !same_kind(&params[k].ty, &arguments[k].ty) {
            return false;
        }
    }
    true
}
