ghost use Rattle.std.specs.Prelude.{◌≡◌, ◌+◌, ◌<◌, if◌then◌else◌, length, is_ok, IfOk};
ghost use Rattle.oi_base.specs.Ascending.{IsAscending};
ghost use Rattle.shapes.specs.Tree.{node, func, weight, inlined, callees};
ghost use Rattle.shapes.specs.Weight.{own_weight, callees_weight, kept, IsWeighed, AreWeighed};
ghost use Rattle.shapes.specs.Over.{IsGraphOf, IsOver, AreOver, sites_of};

use crate::weigh::{call_weight, own_weight};
use call_graph::CallGraph;
use ir_core::{Module, Verified};
use oi_base::{FuncId, Items, NoMemory, SiteId, Steps};
use std::alloc::Global;
use std::marker::Model;
use std::rc::Rc;
use std::sync::ledger::Ledger;

/// The greatest weight that a shape keeps; greater ones stand as this one.
pub const MOST_WEIGHT: u64 = 4_294_967_295;

/// Sites in text order, each with the shape of its callee.
pub type Inlined = Items<(SiteId, Rc<Shape>)>;

/// A function together with, for each of its sites that is inlined, in text order, the shape of the callee. Contracts
/// see it as a tree.
#[derive(Drop)]
pub struct Shape {
    func: FuncId,
    weight: u64,
    inlined: Inlined,
}

impl Model for Shape {
    ghost use Rattle.shapes.specs.Tree.{Tree, node, callees, nodes, deep};
    ghost use Rattle.shapes.specs.TreeCode.{tree_code};

    ghost Value = { Tree };

    ghost coded = { tree_code };

    ghost view = { λ s. node s.func s.weight (callees s.inlined) };

    ghost size = { nodes };

    ghost size_decreases = { λ a h. deep a.inlined };
}

impl Shape {
    /// A function with these sites inlined. The condition is that they ascend, that each is a candidate that the function
    /// calls, and that each shape is of its site's callee. The counter rises by one, unless memory runs out.
    pub fn make<K: Ledger>(
        alloc: Global,
        v: &Verified,
        g: &CallGraph,
        f: FuncId,
        inlined: Inlined,
        made: &mut Steps<K>,
    ) -> Result<Rc<Shape>, NoMemory>
        requires graph { IsGraphOf v.now g.now }
        requires function { f.0 < length g.now.funcs }
        requires ascending { IsAscending (sites_of (callees inlined)) }
        requires over { AreOver v.now g.now f (callees inlined) }
        ensures shape { IfOk result (λ s. s.value ≡ node f (kept (own_weight v.now f + callees_weight v.now (callees inlined))) (callees inlined)) }
        ensures over { IfOk result (λ s. IsOver v.now g.now s.value) }
        ensures ticks { made.new ≡ made.old + (if is_ok result then 1 else 0) }
    {
        Shape::of(alloc, v.module(), f, inlined, made)
    }

    /// The same for any sites with shapes that keep the weights of the module.
    pub(crate) fn of<K: Ledger>(
        alloc: Global,
        m: &Module,
        f: FuncId,
        inlined: Inlined,
        made: &mut Steps<K>,
    ) -> Result<Rc<Shape>, NoMemory>
        requires { AreWeighed m.now (callees inlined) }
        ensures shape { IfOk result (λ s. s.value ≡ node f (kept (own_weight m.now f + callees_weight m.now (callees inlined))) (callees inlined)) }
        ensures ticks { made.new ≡ made.old + (if is_ok result then 1 else 0) }
    {
        let inside = weight_of_inlined(m, inlined.as_slice());
        let weight = own_weight(m, f).saturating_add(inside).min(MOST_WEIGHT);
        let shape = Shape {
            func: f,
            weight,
            inlined,
        };
        let shape = Rc::new(alloc, shape)?;
        made.tick();
        Ok(shape)
    }

    /// The function.
    pub fn func(&self) -> FuncId
        ensures { result ≡ func self.now }
    {
        self.func
    }

    /// The weight of the function's body in which the inlined calls give way to the bodies of their callees, or 4,294,967,295
    /// where it is greater.
    pub fn weight(&self) -> u64
        ensures { result ≡ weight self.now }
    {
        self.weight
    }

    /// The sites that are inlined, in text order, each with the shape of its callee.
    pub fn inlined(&self) -> &[(SiteId, Rc<Shape>)]
        ensures { callees result.now ≡ inlined self.now }
    {
        self.inlined.as_slice()
    }
}

/// What inlined sites add to the weight of a body, where greater weights than the greatest that is kept stand as it.
fn weight_of_inlined(m: &Module, inlined: &[(SiteId, Rc<Shape>)]) -> u64
    requires { AreWeighed m.now (callees inlined.now) }
    ensures { kept result ≡ kept (callees_weight m.now (callees inlined.now)) }
{
    let mut total: u64 = 0;
    for entry in inlined {
        let shape: &Shape = &entry.1;
        total = total
            .saturating_add(call_weight(m, shape.func()))
            .saturating_add(shape.weight());
    }
    total
}
