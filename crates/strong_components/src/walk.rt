ghost use Rattle.std.specs.Prelude.{◌≡◌, ◌≢◌, ◌+◌, ◌-◌, ◌<◌, ◌≤◌, ℕ, List, length, true, false, Some, None, OnOk, OnSome, IfNone, IfSome, IfOk, slice_get};
ghost use Rattle.strong_components.specs.declared.edge.Edge as tied;
ghost use Rattle.strong_components.specs.Chains.{IsRootIn};
ghost use Rattle.strong_components.specs.Walk.{state, mark, entered, IsJoined, IsClosed, IsInRange, IsFollowed, IsLeft, IsLast, IsSeen, Inv, Onward, measure, AreEdges, AreComponents};

use crate::edge::Edge;
use crate::starts::starts_of;
use oi_base::NoMemory;
use std::alloc::{AllocError, Global};

/// How far the walk has come with a node: not there yet, on the stack at a position, or in the component with a
/// number.
#[derive(Clone, Copy)]
pub enum Mark {
    Unseen,
    Open(usize),
    Closed(usize),
}

/// A graph: of each node whether the walk begins there, and the edges, in the order of their tails.
#[derive(Drop)]
pub struct Graph<'a> {
    pub roots: &'a [bool],
    pub edges: &'a [Edge],
}

/// A walk along the edges that finds strongly connected components (H. N. Gabow, "Path-based depth-first search for
/// strong and biconnected components"). The stack holds the nodes whose components are not known yet. A base is the
/// position on it at which a component begins, as far as is known. `active` has the positions of the nodes
/// from which edges may still be followed, and `next` for each node the next of its edges.
#[derive(Drop)]
pub struct Walk {
    marks: Vec<Mark>,
    next: Vec<usize>,
    stack: Vec<usize>,
    bases: Vec<usize>,
    active: Vec<usize>,
    closed: usize,
}

impl Walk {
    /// Comes to a node for the first time.
    fn enter(&mut self, f: usize) -> Result<(), AllocError>
        requires { f < length self.old.marks.items }
        ensures { OnOk result (state self.new ≡ entered (state self.old) f) }
    {
        let at = self.stack.len();
        self.stack.push(f)?;
        self.bases.push(at)?;
        self.active.push(at)?;
        self.marks[f] = Mark::Open(at);
        Ok(())
    }

    /// What stands on the stack from a position on is one component with what lies at this position.
    fn join(&mut self, at: usize)
        ensures joined { IsJoined at self.old.bases.items self.new.bases.items }
        ensures same { state self.new ≡ record (state self.old) { bases = self.new.bases.items } }
    {
        while let Some(base) = self.bases.last() {
            if *base <= at {
                return;
            }
            self.bases.pop();
        }
    }

    /// Gives what stands on the stack from a position on the next component's number.
    fn close(&mut self, base: usize)
        requires within { base ≤ length self.old.stack.items }
        requires marked { IsInRange (length self.old.marks.items) self.old.stack.items }
        requires few { self.old.closed < length self.old.marks.items }
        ensures { IsClosed base (state self.old) (state self.new) }
    {
        while self.stack.len() > base {
            if let Some(f) = self.stack.pop() {
                self.marks[f] = Mark::Closed(self.closed);
            }
        }
        self.closed += 1;
    }

    /// An edge leads to a node: the walk comes to it, or joins what stands above it, or leaves it as it is.
    fn follow(&mut self, g: usize) -> Result<(), AllocError>
        requires { g < length self.old.marks.items }
        ensures { OnOk result (IsFollowed (mark (state self.old) g) g (state self.old) (state self.new)) }
    {
        match self.marks[g] {
            Mark::Unseen => self.enter(g),
            Mark::Open(at) => {
                self.join(at);
                Ok(())
            }
            Mark::Closed(_) => Ok(()),
        }
    }

    /// The last active node, at a position, has no more edges. Where a component begins there, it is whole.
    fn leave(&mut self, at: usize)
        requires within { at ≤ length self.old.stack.items }
        requires marked { IsInRange (length self.old.marks.items) self.old.stack.items }
        requires few { self.old.closed < length self.old.marks.items }
        ensures { IsLeft at (state self.old) (state self.new) }
    {
        self.active.pop();
        if self.begins_last(at) {
            self.bases.pop();
            self.close(at);
        }
    }

    /// Whether the last component begins at a position.
    fn begins_last(&self, at: usize) -> bool
        ensures yes { result ≡ true → slice_get self.now.bases.items (length self.now.bases.items - 1) ≡ Some at }
        ensures no { result ≡ false → slice_get self.now.bases.items (length self.now.bases.items - 1) ≢ Some at }
    {
        match self.bases.last() {
            Some(base) => *base == at,
            None => false,
        }
    }
}

impl Walk {
    /// The next edge of the last active node is followed, or that node is left; whether there was one.
    fn turn(&mut self, graph: &Graph<'_>) -> Result<bool, AllocError>
        requires edges { AreEdges (length graph.now.roots.now) graph.now.edges.now }
        requires inv { Inv (length graph.now.roots.now) graph.now.edges.now (IsRootIn graph.now.roots.now) (state self.old) }
        ensures inv { OnOk result (Inv (length graph.now.roots.now) graph.now.edges.now (IsRootIn graph.now.roots.now) (state self.new)) }
        ensures onward { OnOk result (Onward (state self.old) (state self.new)) }
        ensures nearer { IfOk result (λ more. more ≡ true → measure (length graph.now.edges.now) (state self.new) < measure (length graph.now.edges.now) (state self.old)) }
        ensures end { IfOk result (λ more. more ≡ false → length self.new.active.items ≡ 0) }
    {
        let Some(at) = self.last_active() else {
            return Ok(false);
        };
        let f = self.stack[at];
        let k = self.next[f];
        match edge_of_node(graph.edges, k, f) {
            Some(edge) => {
                self.follow(edge.to)?;
                self.next[f] = k + 1;
            }
            None => self.leave(at),
        }
        Ok(true)
    }

    /// The position of the last active node.
    fn last_active(&self) -> Option<usize>
        ensures some { IfSome result (λ at. IsLast self.now.active.items at) }
        ensures none { IfNone result (length self.now.active.items ≡ 0) }
    {
        self.active.last().copied()
    }

    /// Turns until no node is active.
    fn run(&mut self, graph: &Graph<'_>) -> Result<(), AllocError>
        requires edges { AreEdges (length graph.now.roots.now) graph.now.edges.now }
        requires inv { Inv (length graph.now.roots.now) graph.now.edges.now (IsRootIn graph.now.roots.now) (state self.old) }
        ensures inv { OnOk result (Inv (length graph.now.roots.now) graph.now.edges.now (IsRootIn graph.now.roots.now) (state self.new)) }
        ensures onward { OnOk result (Onward (state self.old) (state self.new)) }
        ensures end { OnOk result (length self.new.active.items ≡ 0) }
    {
        while self.turn(graph)? {}
        Ok(())
    }
}

impl Walk {
    /// A walk that has come to no node.
    fn start(alloc: Global, graph: &Graph<'_>) -> Result<Walk, AllocError>
        requires edges { AreEdges (length graph.now.roots.now) graph.now.edges.now }
        ensures inv { IfOk result (λ w. Inv (length graph.now.roots.now) graph.now.edges.now (IsRootIn graph.now.roots.now) (state w)) }
        ensures idle { IfOk result (λ w. length w.active.items ≡ 0) }
    {
        let count = graph.roots.len();
        let mut marks = Vec::new(alloc);
        marks.resize(count, Mark::Unseen)?;
        Ok(Walk {
            marks,
            next: starts_of(alloc, count, graph.edges)?,
            stack: Vec::new(alloc),
            bases: Vec::new(alloc),
            active: Vec::new(alloc),
            closed: 0,
        })
    }

    /// Comes to a root, if it hasn't yet, and to all that chains of edges lead to from it.
    fn visit(&mut self, graph: &Graph<'_>, f: usize) -> Result<(), AllocError>
        requires edges { AreEdges (length graph.now.roots.now) graph.now.edges.now }
        requires inv { Inv (length graph.now.roots.now) graph.now.edges.now (IsRootIn graph.now.roots.now) (state self.old) }
        requires idle { length self.old.active.items ≡ 0 }
        requires within { f < length graph.now.roots.now }
        ensures inv { OnOk result (Inv (length graph.now.roots.now) graph.now.edges.now (IsRootIn graph.now.roots.now) (state self.new)) }
        ensures idle { OnOk result (length self.new.active.items ≡ 0) }
        ensures onward { OnOk result (Onward (state self.old) (state self.new)) }
        ensures seen { OnOk result (IsRootIn graph.now.roots.now f → IsSeen (state self.new) f) }
    {
        if !graph.roots[f] {
            return Ok(());
        }
        match self.marks[f] {
            Mark::Unseen => {
                self.enter(f)?;
                self.run(graph)
            }
            Mark::Open(_) => Ok(()),
            Mark::Closed(_) => Ok(()),
        }
    }
}

/// The components of the nodes to which chains of edges lead from roots.
pub fn components(alloc: Global, graph: &Graph<'_>) -> Result<Vec<Mark>, NoMemory>
    requires edges { AreEdges (length graph.now.roots.now) graph.now.edges.now }
    ensures { IfOk result (λ marks. AreComponents (length graph.now.roots.now) graph.now.edges.now (IsRootIn graph.now.roots.now) marks.items) }
{
    let mut walk = Walk::start(alloc, graph)?;
    for f in 0..graph.roots.len() {
        walk.visit(graph, f)?;
    }
    Ok(walk.marks)
}

/// The edge with an index, if it leaves the node.
fn edge_of_node(edges: &[Edge], k: usize, f: usize) -> Option<Edge>
    ensures some { OnSome result (slice_get edges.now k ≡ result) }
    ensures own { IfSome result (λ s. s.from ≡ f) }
    ensures within { OnSome result (k < 18446744073709551615) }
    ensures none { IfNone result ((s : tied.Edge) → slice_get edges.now k ≡ Some s → s.from ≢ f) }
{
    if k < edges.len() && edges[k].from == f {
        return Some(edges[k]);
    }
    None
}
