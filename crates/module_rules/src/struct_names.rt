ghost use Rattle.std.specs.Prelude.{◌≡◌, map, IfOk};
ghost use Rattle.module_rules.specs.TypeFaults.{emptied, emptied_def, emptied_defs};

use ir_core::{IrType, TypeDef};
use oi_base::{Items, NoMemory};
use std::alloc::Global;

/// The definitions with each struct emptied, and `void` for what is neither a struct nor a name. By these a name has a
/// layout exactly where it stands for a struct.
pub fn emptied_defs(alloc: Global, defs: &[TypeDef]) -> Result<Items<TypeDef>, NoMemory>
    ensures { IfOk result (λ es. es ≡ emptied_defs defs.now) }
{
    let mut emptied = Items::new(alloc);
    for def in defs {
        emptied.push(emptied_def(alloc, def))?;
    }
    Ok(emptied)
}

fn emptied_def(alloc: Global, def: &TypeDef) -> TypeDef
    ensures { result ≡ emptied_def def.now }
{
    TypeDef {
        place: def.place,
        name: def.name,
        ty: emptied(alloc, &def.ty),
    }
}

fn emptied(alloc: Global, t: &IrType) -> IrType
    ensures { result ≡ emptied t.now }
{
    match t {
        IrType::Struct(_) => IrType::Struct(Items::new(alloc)),
        IrType::Named(name) => IrType::Named(*name),
        _ => IrType::Void,
    }
}
