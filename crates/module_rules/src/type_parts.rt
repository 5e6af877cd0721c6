ghost use Rattle.std.specs.Prelude.{◌≡◌, ◌++◌, ◌∷◌, [], IfOk, OnOk};
ghost use Rattle.std.specs.List.{flat_map, list_any};
ghost use Rattle.ir_core.specs.Parts.{names_in_type};
ghost use Rattle.module_rules.specs.TypeFaults.{has_void, is_void, is_void_wrongly};

use ir_core::{IrType, TypeName};
use std::alloc::{AllocError, Global};

/// The names that stand in a type.
pub fn names_in(alloc: Global, t: &IrType) -> Result<Vec<TypeName>, AllocError>
    ensures { IfOk result (λ names. names.items ≡ names_in_type t.now) }
{
    let mut names = Vec::new(alloc);
    push_names(&mut names, t)?;
    Ok(names)
}

/// Puts the names that stand in a type after others.
#[cycle(names)]
fn push_names(to: &mut Vec<TypeName>, t: &IrType) -> Result<(), AllocError>
    ensures { OnOk result (to.new.items ≡ to.old.items ++ names_in_type t.now) }
{
    match t {
        IrType::Array(_, item) => push_names(to, item.get()),
        IrType::Struct(fields) => push_all_names(to, fields.as_slice()),
        IrType::Named(name) => push_name(to, *name),
        _ => Ok(()),
    }
}

#[cycle(names)]
fn push_all_names(to: &mut Vec<TypeName>, types: &[IrType]) -> Result<(), AllocError>
    ensures { OnOk result (to.new.items ≡ to.old.items ++ flat_map names_in_type types.now) }
{
    for t in types {
        push_names(to, t)?;
    }
    Ok(())
}

fn push_name(to: &mut Vec<TypeName>, name: TypeName) -> Result<(), AllocError>
    ensures { OnOk result (to.new.items ≡ to.old.items ++ name ∷ []) }
{
    to.push(name)?;
    Ok(())
}

/// Whether `void` stands in a type that isn't itself the `void` of a result.
pub fn is_void_wrongly(t: &IrType, is_result: bool) -> bool
    ensures { result ≡ is_void_wrongly t.now is_result }
{
    has_void(t) && !(is_result && is_void(t))
}

fn is_void(t: &IrType) -> bool
    ensures { result ≡ is_void t.now }
{
    matches!(t, IrType::Void)
}

#[cycle(voids)]
fn has_void(t: &IrType) -> bool
    ensures { result ≡ has_void t.now }
{
    match t {
        IrType::Void => true,
        IrType::Array(_, item) => has_void(item.get()),
        IrType::Struct(fields) => any_has_void(fields.as_slice()),
        _ => false,
    }
}

#[cycle(voids)]
fn any_has_void(types: &[IrType]) -> bool
    ensures { result ≡ list_any has_void types.now }
{
    for t in types {
        if has_void(t) {
            return true;
        }
    }
    false
}
