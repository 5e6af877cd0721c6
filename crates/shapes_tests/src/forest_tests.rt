ghost use Rattle.std.specs.Prelude.{◌≡◌, ◌<◌, true, None, Some, IfOk};
ghost use Rattle.decisions.specs.Maps.{label_of};
ghost use Rattle.shapes.specs.Over.{IsGraphOf};
ghost use Rattle.shapes.specs.Standing.{IsForest};

use crate::modules::module;
use call_graph::{CallGraph, graph};
use ir_core::Verified;
use oi_base::{FuncId, SiteId, Steps};
use shapes::{Forest, Shape};
use std::alloc::Global;
use std::marker::Brand;
use std::sync::ledger::{Blank, Ledger};
use std::test::Fail;

/// A function, its weight, and in brackets its inlined sites with the shapes of their callees.
const SHAPES: &str = "0:10(1 1:3(4 3:1()) 3 1:3(4 3:1()))
1:3(4 3:1())
2:3(5 3:1())
3:1()
";

/// A decision: a site, and whether it is inlined.
type Decision = (u32, bool);

/// Whether a site is a candidate that is not decided.
fn is_undecided(v: &Verified, g: &CallGraph, forest: &Forest, s: SiteId) -> bool
    requires { IsForest v.now g.now forest.now }
    ensures { result ≡ true → label_of forest.now.labels s ≡ Some None }
{
    g.candidates().contains(&s) && forest.partial().get(s).is_none()
}

/// The forest after a decision.
fn decided<K: Ledger>(
    alloc: Global,
    v: &Verified,
    g: &CallGraph,
    forest: &Forest,
    decision: Decision,
    made: &mut Steps<K>,
) -> Result<Forest, Fail>
    requires graph { IsGraphOf v.now g.now }
    requires forest { IsForest v.now g.now forest.now }
    ensures { IfOk result (IsForest v.now g.now) }
{
    let s = SiteId(decision.0);
    if !is_undecided(v, g, forest, s) {
        return Err("decided before")?;
    }
    if decision.1 {
        Ok(forest.inline(alloc, v, g, s, made)?)
    } else {
        Ok(forest.keep(alloc, s)?)
    }
}

fn push_begin(said: &mut String, shape: &Shape) -> Result<(), Fail> {
    write!(said, "{}:{}(", shape.func().0, shape.weight())?;
    Ok(())
}

fn push_site(said: &mut String, at: usize, s: SiteId) -> Result<(), Fail> {
    if at > 0 {
        said.push(' ')?;
    }
    write!(said, "{} ", s.0)?;
    Ok(())
}

/// A shape in which no other function is inlined.
fn push_leaf(said: &mut String, shape: &Shape) -> Result<(), Fail> {
    push_begin(said, shape)?;
    said.push(')')?;
    Ok(())
}

/// A shape of leaves.
fn push_caller(said: &mut String, shape: &Shape) -> Result<(), Fail> {
    push_begin(said, shape)?;
    for (at, entry) in shape.inlined().iter().enumerate() {
        push_site(said, at, entry.0)?;
        push_leaf(said, &entry.1)?;
    }
    said.push(')')?;
    Ok(())
}

/// A shape of shapes of leaves, as all shapes of the module are.
fn push_shape(said: &mut String, shape: &Shape) -> Result<(), Fail> {
    push_begin(said, shape)?;
    for (at, entry) in shape.inlined().iter().enumerate() {
        push_site(said, at, entry.0)?;
        push_caller(said, &entry.1)?;
    }
    said.push(')')?;
    Ok(())
}

/// The shapes of the four functions, a line each.
fn spelled(alloc: Global, v: &Verified, g: &CallGraph, forest: &Forest) -> Result<String, Fail>
    requires { IsForest v.now g.now forest.now }
{
    let mut said = String::new(alloc);
    for f in 0..g.funcs() {
        if g.reached(FuncId(f)) {
            push_shape(&mut said, forest.shape(FuncId(f)))?;
            said.push('\n')?;
        }
    }
    Ok(said)
}

/// The shapes after decisions, and before them a line with the count of shapes made at the start and after each decision.
fn told_over<K: Ledger>(
    alloc: Global,
    v: &Verified,
    g: &CallGraph,
    decisions: &[Decision],
    made: &mut Steps<K>,
) -> Result<String, Fail>
    requires { IsGraphOf v.now g.now }
{
    let mut forest = Forest::start(alloc, v, g, made)?;
    let mut said = format!(in alloc; "{}", made.count())?;
    for decision in decisions {
        forest = decided(alloc, v, g, &forest, *decision, made)?;
        write!(said, " {}", made.count())?;
    }
    said.push('\n')?;
    said.push_str(spelled(alloc, v, g, &forest)?.as_str())?;
    Ok(said)
}

/// The same over the graph of the module.
fn told<K: Ledger>(
    alloc: Global,
    decisions: &[Decision],
    made: &mut Steps<K>,
) -> Result<String, Fail> {
    let v = module(alloc)?;
    let g = graph(alloc, &v, false)?;
    told_over(alloc, &v, &g, decisions, made)
}

fn counted<K: Ledger>(alloc: Global, blank: Blank, decisions: &[Decision]) -> Result<String, Fail>
    requires name { blank.name ≡ K.name }
    requires parts { blank.parts ≡ K.parts }
    requires some { 0 < blank.parts }
{
    let (book, share) = blank.open::<K>();
    let mut made = Steps::start(book, share);
    told(alloc, decisions, &mut made)
}

#[test]
fn from_the_callers_on(rt: HostRuntime) -> Result<(), Fail> {
    let alloc = rt.alloc();
    let order = [(1, true), (4, true), (2, false), (5, true), (3, true)];
    let said = counted::<Brand>(alloc, Blank::new(1), &order)?;
    let all = format!(in alloc; "4 5 7 7 8 9\n{SHAPES}")?;
    assert_eq!(rt; said.as_str(), all.as_str());
    Ok(())
}

#[test]
fn from_the_callees_on(rt: HostRuntime) -> Result<(), Fail> {
    let alloc = rt.alloc();
    let order = [(5, true), (3, true), (2, false), (4, true), (1, true)];
    let said = counted::<Brand>(alloc, Blank::new(1), &order)?;
    let all = format!(in alloc; "4 5 6 6 8 9\n{SHAPES}")?;
    assert_eq!(rt; said.as_str(), all.as_str());
    Ok(())
}
