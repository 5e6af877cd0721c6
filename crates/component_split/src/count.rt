ghost use Rattle.std.specs.Prelude.{◌≡◌, ◌≢◌, ◌<◌, ◌≤◌, ◌++◌, ℕ, List, [], ◌∷◌, map, true, Some, None, IsSome, IfOk, OnOk, MatchOption};
ghost use Rattle.std.specs.List.{All};
ghost use Rattle.decisions.specs.declared.maps.Label.TheVariants.{Keep, Inline};
ghost use Rattle.decisions.specs.Maps.{label_of};
ghost use Rattle.oi_base.specs.declared.ids.SiteId as site_id;
ghost use Rattle.component_split.specs.Graph.{inside, with_label};
ghost use Rattle.component_split.specs.Split.{open_sites};
ghost use Rattle.component_split.specs.Tree.{Tree, nodes, is_decided};
ghost use Rattle.component_split.specs.Over.{site_graph, labels, reached_from, IsSetOf, HoldsInside, IsMarksOf, IsCandidateNumber};
ghost use Rattle.component_split.specs.States.{IsTreeOf, IsStateOf, AgreeInside, SamePoint, SamePoints, none_decided, point, children};

use crate::choice::choose;
use crate::marks::Marks;
use crate::parts::components;
use crate::sets::FuncSet;
use crate::states::is_open;
use call_graph::CallGraph;
use decisions::{Label, Partial};
use oi_base::{NoMemory, SiteId};
use std::alloc::Global;

/// A state of the search: a set of functions, and a partial map of the candidates inside it.
#[derive(Drop)]
pub struct State {
    pub partial: Partial,
    pub set: FuncSet,
}

/// How many nodes the search's tree has from all reached functions, no candidate being decided; `None` exactly where
/// they are more than the limit.
pub fn count_nodes(alloc: Global, g: &CallGraph, limit: u32) -> Result<Option<u32>, NoMemory>
    ensures { IfOk result (λ r. (t : Tree) → IsTreeOf g.now t → MatchOption r (limit < nodes t) (λ n. (n ≡ nodes t) × (n ≤ limit))) }
{
    let mut marks = Marks::new(alloc, g)?;
    let mut todo = Vec::new(alloc);
    todo.push(start(alloc, g)?)?;
    let mut count = 0;
    while let Some(state) = todo.pop() {
        if count == limit {
            return Ok(None);
        }
        count += 1;
        push_children(alloc, g, &state, &mut marks, &mut todo)?;
    }
    Ok(Some(count))
}

/// All reached functions, no candidate being decided.
fn start(alloc: Global, g: &CallGraph) -> Result<State, NoMemory>
    ensures state { IfOk result (λ s. IsStateOf g.now s) }
    ensures point { IfOk result (λ s. SamePoint (site_graph g.now) (point s) (none_decided g.now, reached_from 0 g.now.funcs)) }
{
    let set = FuncSet::all(alloc, g)?;
    let partial = Partial::start(alloc, &set.sites)?;
    Ok(State { partial, set })
}

/// Puts the states below a state on the stack.
fn push_children(
    alloc: Global,
    g: &CallGraph,
    state: &State,
    marks: &mut Marks,
    todo: &mut Vec<State>,
) -> Result<(), NoMemory>
    requires state { IsStateOf g.now state.now }
    requires marks { IsMarksOf g.now marks.old }
    requires others { All (λ s. IsStateOf g.now s) todo.old.items }
    ensures children { OnOk result (SamePoints (site_graph g.now) (map point todo.new.items) (map point todo.old.items ++ children (site_graph g.now) (point state.now))) }
    ensures states { OnOk result (All (λ s. IsStateOf g.now s) todo.new.items) }
    ensures marks { marks.new ≡ marks.old }
{
    if is_decided(g, &state.partial, &state.set) {
        return Ok(());
    }
    let parts = components(alloc, g, &state.partial, &state.set)?;
    if parts.len() > 1 {
        push_parts(alloc, g, &state.partial, &parts, todo)?;
        return Ok(());
    }
    let site = choose(g, &state.partial, &state.set, marks);
    push_branch(alloc, g, state, site, todo)?;
    Ok(())
}

/// Puts a state for each set on the stack.
fn push_parts(
    alloc: Global,
    g: &CallGraph,
    partial: &Partial,
    sets: &[FuncSet],
    todo: &mut Vec<State>,
) -> Result<(), NoMemory>
    requires sets { All (λ s. IsSetOf g.now s) sets.now }
    requires maps { All (λ s. HoldsInside g.now s partial.now) sets.now }
    requires others { All (λ s. IsStateOf g.now s) todo.old.items }
    ensures states { OnOk result (All (λ s. IsStateOf g.now s) todo.new.items) }
    ensures points { OnOk result (SamePoints (site_graph g.now) (map point todo.new.items) (map point todo.old.items ++ map (λ (s : List ℕ × List ℕ). (labels partial.now, s.0)) sets.now)) }
{
    for set in sets {
        todo.push(State {
            partial: labels_inside(alloc, g, partial, set)?,
            set: set.copy(alloc)?,
        })?;
    }
    Ok(())
}

/// What the map has for the candidates inside a set.
fn labels_inside(
    alloc: Global,
    g: &CallGraph,
    partial: &Partial,
    set: &FuncSet,
) -> Result<Partial, NoMemory>
    requires set { IsSetOf g.now set.now }
    requires map { HoldsInside g.now set.now partial.now }
    ensures map { IfOk result (λ p. HoldsInside g.now set.now p) }
    ensures agree { IfOk result (λ p. AgreeInside (site_graph g.now) set.now.0 (labels p) (labels partial.now)) }
{
    let mut inside = Partial::start(alloc, &set.sites)?;
    for site in &set.sites {
        copy_label(partial, *site, &mut inside);
    }
    Ok(inside)
}

/// Gives an undecided site the label that it may have in another map.
fn copy_label(from: &Partial, site: SiteId, to: &mut Partial)
    requires held { IsSome (label_of from.now site) }
    requires undecided { label_of to.old site ≡ Some None }
    ensures label { label_of to.new site ≡ label_of from.now site }
    ensures others { (s : site_id.SiteId) → s ≢ site → label_of to.new s ≡ label_of to.old s }
{
    if let Some(label) = from.get(site) {
        to.set(site, label);
    }
}

/// Puts the states in which the site is kept and inlined on the stack.
fn push_branch(
    alloc: Global,
    g: &CallGraph,
    state: &State,
    site: SiteId,
    todo: &mut Vec<State>,
) -> Result<(), NoMemory>
    requires state { IsStateOf g.now state.now }
    requires site { IsCandidateNumber g.now site.0 }
    requires inside { inside (site_graph g.now) state.now.set.0 site.0 ≡ true }
    requires others { All (λ s. IsStateOf g.now s) todo.old.items }
    ensures states { OnOk result (All (λ s. IsStateOf g.now s) todo.new.items) }
    ensures points { OnOk result (map point todo.new.items ≡ map point todo.old.items ++ ((with_label (labels state.now.partial) site.0 Keep, state.now.set.0) ∷ (with_label (labels state.now.partial) site.0 Inline, state.now.set.0) ∷ [])) }
{
    todo.push(child(alloc, g, state, site, Label::Keep)?)?;
    todo.push(child(alloc, g, state, site, Label::Inline)?)?;
    Ok(())
}

/// The state in which a site has a label.
fn child(
    alloc: Global,
    g: &CallGraph,
    state: &State,
    site: SiteId,
    label: Label,
) -> Result<State, NoMemory>
    requires state { IsStateOf g.now state.now }
    requires site { IsCandidateNumber g.now site.0 }
    requires inside { inside (site_graph g.now) state.now.set.0 site.0 ≡ true }
    ensures state { IfOk result (λ s. IsStateOf g.now s) }
    ensures point { IfOk result (λ s. point s ≡ (with_label (labels state.now.partial) site.0 label, state.now.set.0)) }
{
    let mut partial = state.partial.copy(alloc)?;
    partial.set(site, label);
    Ok(State {
        partial,
        set: state.set.copy(alloc)?,
    })
}

/// Whether no undecided site is inside the set.
fn is_decided(g: &CallGraph, p: &Partial, s: &FuncSet) -> bool
    requires set { IsSetOf g.now s.now }
    requires map { HoldsInside g.now s.now p.now }
    ensures { result ≡ is_decided (site_graph g.now) (labels p.now) s.now.0 }
{
    for site in &s.sites {
        if is_open(p, *site) {
            return false;
        }
    }
    true
}
