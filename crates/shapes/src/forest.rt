ghost use Rattle.std.specs.Option.{option_map};
ghost use Rattle.std.specs.Prelude.{◌≡◌, ◌+◌, ◌≤◌, ◌<◌, length, Some, None, IfOk, is_ok, if◌then◌else◌, IsSome, slice_get};
ghost use Rattle.ir_core.specs.declared.module.Module as modules;
ghost use Rattle.call_graph.specs.Graph as graphs;
ghost use Rattle.call_graph.specs.Graph.{SiteIs};
ghost use Rattle.call_graph.specs.declared.facts.FuncFacts as func_facts;
ghost use Rattle.call_graph.specs.declared.facts.SiteFacts as site_facts;
ghost use Rattle.decisions.specs.declared.maps.Label.TheVariants.{Keep, Inline};
ghost use Rattle.decisions.specs.Maps.{label_of, undecided, SetsOnly};
ghost use Rattle.shapes.specs.Over.{IsGraphOf};
ghost use Rattle.shapes.specs.Standing.{IsForest, tree_of, values, reached_count};
ghost use Rattle.shapes.specs.Reaching.{reaching_count};
ghost use Rattle.shapes.specs.Starting.{bare, bare_from};

use crate::renewal::Inlining;
use crate::shape::{Inlined, Shape};
use call_graph::CallGraph;
use decisions::{Label, Partial};
use ir_core::{Module, Verified};
use oi_base::{FuncId, NoMemory, SiteId, Steps};
use std::alloc::Global;
use std::marker::Model;
use std::rc::Rc;
use std::sync::ledger::Ledger;

/// A shape for each function of a graph, by its position, where the function is reached.
pub(crate) type Table = Vec<Option<Rc<Shape>>>;

/// The shapes of the reached functions, and the partial map for which they stand; an undecided site is not inlined. The
/// table of the shapes is shared with forests in which they are the same.
#[derive(Drop)]
pub struct Forest {
    table: Rc<Table>,
    partial: Partial,
}

impl Model for Forest {
    ghost use Rattle.shapes.specs.Standing.{Trees, trees_code, values};

    ghost Value = { Trees };

    ghost coded = { trees_code };

    ghost view = { λ x. record { trees = values x.table.value.items; labels = x.partial } };
}

impl Forest {
    /// The forest of the map in which each candidate is undecided. The counter rises by one for each reached function, and by
    /// no more where memory runs out.
    pub fn start<K: Ledger>(
        alloc: Global,
        v: &Verified,
        g: &CallGraph,
        made: &mut Steps<K>,
    ) -> Result<Forest, NoMemory>
        requires { IsGraphOf v.now g.now }
        ensures forest { IfOk result (IsForest v.now g.now) }
        ensures labels { IfOk result (λ x. x.labels ≡ undecided (graphs.candidate_ids g.now)) }
        ensures ticks { IfOk result (λ x. made.new ≡ made.old + reached_count g.now.funcs) }
        ensures no_more { made.new ≤ made.old + reached_count g.now.funcs }
    {
        let table = Rc::new(alloc, bare_shapes(alloc, v.module(), g, made)?)?;
        let partial = Partial::start(alloc, g.candidates())?;
        Ok(Forest { table, partial })
    }

    /// The forest in which an undecided candidate is kept. All shapes are the old ones, and the time and memory that it takes
    /// are those of a copy of the map.
    pub fn keep(&self, alloc: Global, s: SiteId) -> Result<Forest, NoMemory>
        requires undecided { label_of self.now.labels s ≡ Some None }
        ensures trees { IfOk result (λ x. x.trees ≡ self.now.trees) }
        ensures labels { IfOk result (λ x. SetsOnly self.now.labels x.labels s (Some Keep)) }
        ensures forest { (m : modules.Module) (g : graphs.Graph) → IsForest m g self.now → IfOk result (IsForest m g) }
    {
        Ok(Forest {
            partial: self.labelled(alloc, s, Label::Keep)?,
            table: self.table.clone()?,
        })
    }

    /// The forest in which an undecided candidate is inlined. The functions that reach its caller by inline sites, the caller
    /// too, have new shapes, each made once, after those of its callees; all other shapes are the old ones. The counter rises
    /// by one for each new shape, and by no more where memory runs out. Time and memory are those of a copy of the map and of
    /// the table, and of a walk over the sites that the old map inlines.
    pub fn inline<K: Ledger>(
        &self,
        alloc: Global,
        v: &Verified,
        g: &CallGraph,
        s: SiteId,
        made: &mut Steps<K>,
    ) -> Result<Forest, NoMemory>
        requires graph { IsGraphOf v.now g.now }
        requires forest { IsForest v.now g.now self.now }
        requires undecided { label_of self.now.labels s ≡ Some None }
        ensures forest { IfOk result (IsForest v.now g.now) }
        ensures labels { IfOk result (λ x. SetsOnly self.now.labels x.labels s (Some Inline)) }
        ensures ticks { (x : site_facts.SiteFacts) → SiteIs g.now s x → IfOk result (λ y. made.new ≡ made.old + reaching_count x.site.caller self.now.trees) }
        ensures no_more { (x : site_facts.SiteFacts) → SiteIs g.now s x → made.new ≤ made.old + reaching_count x.site.caller self.now.trees }
    {
        let callee = self.shape(g.callee(s));
        let inlining = Inlining::new(&self.table, s, g.caller(s), callee);
        let table = inlining.shapes(alloc, v.module(), made)?;
        let partial = self.labelled(alloc, s, Label::Inline)?;
        Ok(Forest {
            table: Rc::new(alloc, table)?,
            partial,
        })
    }

    /// The map in which an undecided candidate has a label.
    fn labelled(&self, alloc: Global, s: SiteId, label: Label) -> Result<Partial, NoMemory>
        requires { label_of self.now.labels s ≡ Some None }
        ensures { IfOk result (λ p. SetsOnly self.now.labels p s (Some label)) }
    {
        let mut partial = self.partial.copy(alloc)?;
        partial.set(s, label);
        Ok(partial)
    }

    /// The shape of a reached function.
    pub fn shape(&self, f: FuncId) -> &Rc<Shape>
        requires { IsSome (tree_of self.now f) }
        ensures { tree_of self.now f ≡ Some result.now.value }
    {
        match &self.table[f.0 as usize] {
            Some(shape) => shape,
            None => unreachable!(),
        }
    }

    /// The partial map for which the shapes stand.
    pub fn partial(&self) -> &Partial
        ensures { result.now ≡ self.now.labels }
    {
        &self.partial
    }
}

/// Of each function the shape without inlined sites, where it is reached.
fn bare_shapes<K: Ledger>(
    alloc: Global,
    m: &Module,
    g: &CallGraph,
    made: &mut Steps<K>,
) -> Result<Table, NoMemory>
    ensures shapes { IfOk result (λ t. values t.items ≡ bare_from m.now 0 g.now.funcs) }
    ensures ticks { IfOk result (λ t. made.new ≡ made.old + reached_count g.now.funcs) }
    ensures no_more { made.new ≤ made.old + reached_count g.now.funcs }
{
    let mut table = Vec::new(alloc);
    for f in 0..g.funcs() {
        table.push(bare_shape(alloc, m, g, FuncId(f), made)?)?;
    }
    Ok(table)
}

/// The shape of a function without inlined sites, where it is reached.
fn bare_shape<K: Ledger>(
    alloc: Global,
    m: &Module,
    g: &CallGraph,
    f: FuncId,
    made: &mut Steps<K>,
) -> Result<Option<Rc<Shape>>, NoMemory>
    requires { f.0 < length g.now.funcs }
    ensures shape { (h : func_facts.FuncFacts) → slice_get g.now.funcs f.0 ≡ Some h → IfOk result (λ o. option_map (λ r. r.value) o ≡ bare m.now h f) }
    ensures ticks { (h : func_facts.FuncFacts) → slice_get g.now.funcs f.0 ≡ Some h → made.new ≡ made.old + (if is_ok result then (if h.reached then 1 else 0) else 0) }
{
    if g.reached(f) {
        let shape = Shape::of(alloc, m, f, Inlined::new(alloc), made)?;
        Ok(Some(shape))
    } else {
        Ok(None)
    }
}
