ghost use Rattle.std.specs.Prelude.{IfOk};
ghost use Rattle.component_split.specs.Over.{HoldsInside};

use crate::modules::graph_of;
use call_graph::CallGraph;
use component_split::{FuncSet, Marks, components, is_bridge};
use decisions::Partial;
use oi_base::{FuncId, NoMemory};
use std::alloc::Global;
use std::test::Fail;

/// The functions of a module, the components of those that are reached, where no site is decided, and the candidates without which
/// there are several components. Expected values are those of a plain model.
const COMPONENTS: &str = "+|0|
+,1 -|0 1|1
+,1,1 -|0 1|
+,1,2 -,1 -,3 -,2|0 1 2/3|1 2
+,1,1,2 - -,3,3 -|0 1 2 3|3
+,1,2 -,3 -,3 -|0 1 2 3|
+,1,2 -,2 -,3 -,4,4 -|0 1 2 3 4|4
+ -,2 -|0|
+,1 !,2 -|0/1 2|2
+,1,2,3 -,4 -,4 -,5 - -|0 1 2 3 4 5|3 6
+,1 -,2 -,3 -,1,4 -,5 -|0 1/2/3 4 5|1 5 6
+,1,3 -,2 - -,4,5 -,5 -,6 -|0 1 2 3 4 5 6|1 2 3 7";

/// A map in which no candidate is decided.
fn undecided(alloc: Global, g: &CallGraph, set: &FuncSet) -> Result<Partial, NoMemory>
    ensures { IfOk result (λ p. HoldsInside g.now set.now p) }
{
    let partial = Partial::start(alloc, g.candidates())?;
    Ok(partial)
}

/// The functions of each component.
fn parts_of(alloc: Global, g: &CallGraph) -> Result<String, Fail> {
    let set = FuncSet::all(alloc, g)?;
    let partial = undecided(alloc, g, &set)?;
    let mut said = String::new(alloc);
    for part in components(alloc, g, &partial, &set)?.as_slice() {
        if !said.is_empty() {
            said.push('/')?;
        }
        push_numbers(&mut said, part)?;
    }
    Ok(said)
}

fn push_numbers(said: &mut String, part: &FuncSet) -> Result<(), Fail> {
    for (at, func) in part.list().iter().enumerate() {
        if at > 0 {
            said.push(' ')?;
        }
        write!(said, "{}", func.0)?;
    }
    Ok(())
}

/// The candidates without which there are several components.
fn bridges_of(alloc: Global, g: &CallGraph) -> Result<String, Fail> {
    let set = FuncSet::all(alloc, g)?;
    let partial = undecided(alloc, g, &set)?;
    let mut marks = Marks::new(alloc, g)?;
    let mut said = String::new(alloc);
    for site in g.candidates() {
        if is_bridge(g, &partial, &set, *site, &mut marks) {
            if !said.is_empty() {
                said.push(' ')?;
            }
            write!(said, "{}", site.0)?;
        }
    }
    Ok(said)
}

#[test]
fn components_and_bridges(rt: HostRuntime) -> Result<(), Fail> {
    let alloc = rt.alloc();
    for line in COMPONENTS.lines() {
        let (row, rest) = line.split_once('|').ok_or("no functions")?;
        let (parts, bridges) = rest.split_once('|').ok_or("no components")?;
        let g = graph_of(alloc, row, false)?;
        assert_eq!(rt; parts_of(alloc, &g)?.as_str(), parts, "{line}");
        assert_eq!(rt; bridges_of(alloc, &g)?.as_str(), bridges, "{line}");
    }
    Ok(())
}

#[test]
fn functions_of_a_set(rt: HostRuntime) -> Result<(), Fail> {
    let alloc = rt.alloc();
    let g = graph_of(alloc, "+,2 -,1 -", false)?;
    let set = FuncSet::all(alloc, &g)?;
    assert!(rt; set.has(FuncId(0)));
    assert!(rt; !set.has(FuncId(1)));
    assert!(rt; set.has(FuncId(2)));
    Ok(())
}
