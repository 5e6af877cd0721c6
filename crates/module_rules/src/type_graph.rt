ghost use Rattle.std.specs.Prelude.{◌≡◌, ◌++◌, length, IfOk, OnOk};
ghost use Rattle.ir_core.specs.Sizes.{definition};
ghost use Rattle.ir_core.specs.Proper.{IsProper};
ghost use Rattle.module_rules.specs.Cycles.{held_names, edges_from, edges_of, AreOfNames};

use crate::type_parts::names_in;
use ir_core::{Module, TypeName};
use oi_base::NoMemory;
use std::alloc::Global;
use strong_components::{Edge, Graph, Mark, components};

/// The strongly connected components of a module's type names, where each leads to those in its definition.
pub fn components_of(alloc: Global, m: &Module) -> Result<Vec<Mark>, NoMemory>
    requires { IsProper m.now }
    ensures { IfOk result (λ marks. AreOfNames m.now marks.items) }
{
    let mut roots = Vec::new(alloc);
    roots.resize(m.types.names.len(), true)?;
    let edges = edges_of(alloc, m)?;
    let graph = Graph {
        roots: roots.as_slice(),
        edges: edges.as_slice(),
    };
    components(alloc, &graph)
}

fn edges_of(alloc: Global, m: &Module) -> Result<Vec<Edge>, NoMemory>
    ensures { IfOk result (λ edges. edges.items ≡ edges_of m.now.types.defs (length m.now.types.names)) }
{
    let mut edges = Vec::new(alloc);
    for x in 0..m.types.names.len() {
        push_edges(alloc, m, type_name(x)?, &mut edges)?;
    }
    Ok(edges)
}

/// A position as a name; there is no room for more names than numbers.
fn type_name(x: usize) -> Result<TypeName, NoMemory>
    ensures { IfOk result (λ name. name ≡ record { 0 = x }) }
{
    match u32::try_from(x) {
        Ok(x) => Ok(TypeName(x)),
        Err(_) => Err(NoMemory),
    }
}

fn push_edges(alloc: Global, m: &Module, x: TypeName, to: &mut Vec<Edge>) -> Result<(), NoMemory>
    ensures { OnOk result (to.new.items ≡ to.old.items ++ edges_from m.now.types.defs x) }
{
    let names = held_names(alloc, m, x)?;
    for y in names.as_slice() {
        to.push(Edge {
            from: x.0 as usize,
            to: y.0 as usize,
        })?;
    }
    Ok(())
}

/// The names that stand in the definition of one.
pub fn held_names(alloc: Global, m: &Module, x: TypeName) -> Result<Vec<TypeName>, NoMemory>
    ensures { IfOk result (λ names. names.items ≡ held_names (definition m.now.types.defs x)) }
{
    match m.types.defs.definition(x) {
        Some(def) => Ok(names_in(alloc, &def.ty)?),
        None => Ok(Vec::new(alloc)),
    }
}
