ghost use Rattle.std.specs.Prelude.{◌≡◌, [], IfOk};
ghost use Rattle.ir_core.specs.Proper.{IsProper};
ghost use Rattle.ir_core.specs.ValidTypes.{BreaksTypeNames};
ghost use Rattle.module_rules.specs.First.{earliest, IsFound};
ghost use Rattle.module_rules.specs.TypeFaults.{BreaksUses, again_faults};

use crate::cycles::first_itself;
use crate::first::earlier_if;
use crate::numbers::Numbers;
use crate::type_uses::uses_in;
use ir_core::{Module, TypeDef};
use oi_base::{NoMemory, Place};
use std::alloc::Global;

/// The first type with a `void` that is no result or with a name that stands for no struct, definition of a used name that
/// is defined before, or definition of a type that holds itself.
pub fn first_break(alloc: Global, m: &Module) -> Result<Option<Place>, NoMemory>
    requires proper { IsProper m.now }
    ensures found { IfOk result (IsFound (BreaksTypeNames m.now)) }
{
    let first = first_wrong_use(alloc, m)?;
    first_itself(alloc, first, m)
}

/// The same but for types that hold themselves.
fn first_wrong_use(alloc: Global, m: &Module) -> Result<Option<Place>, NoMemory>
    ensures { IfOk result (IsFound (BreaksUses m.now)) }
{
    let uses = uses_in(alloc, m)?;
    defined_again(alloc, uses.first(), uses.used(), m.types.defs.as_slice())
}

/// The earlier of a place and the first definition of a used name that stands after another.
fn defined_again(
    alloc: Global,
    before: Option<Place>,
    used: &Numbers,
    defs: &[TypeDef],
) -> Result<Option<Place>, NoMemory>
    ensures { IfOk result (λ first. first ≡ earliest before (again_faults used.now [] defs.now)) }
{
    let mut first = before;
    let mut names = Numbers::new(alloc);
    for def in defs {
        let is_new = names.add(def.name.0)?;
        first = earlier_if(first, !is_new && used.has(def.name.0), def.place);
    }
    Ok(first)
}
