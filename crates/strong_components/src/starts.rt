ghost use Rattle.std.specs.Prelude.{◌≡◌, ◌<◌, ◌≤◌, ℕ, length, Some, IfOk, slice_get};
ghost use Rattle.strong_components.specs.declared.edge.Edge as tied;
ghost use Rattle.strong_components.specs.Walk.{IsSorted, AreStarts};

use crate::edge::Edge;
use std::alloc::{AllocError, Global};

/// The first edge of each of `count` nodes, where tails ascend: the first whose tail is no node before it.
pub fn starts_of(alloc: Global, count: usize, edges: &[Edge]) -> Result<Vec<usize>, AllocError>
    requires { IsSorted edges.now }
    ensures { IfOk result (λ starts. AreStarts count edges.now starts.items) }
{
    let mut starts = Vec::new(alloc);
    let mut at = 0;
    for f in 0..count {
        at = first_from(edges, at, f);
        starts.push(at)?;
    }
    Ok(starts)
}

/// The first edge from a place on whose tail is no node before `f`.
fn first_from(edges: &[Edge], from: usize, f: usize) -> usize
    requires within { from ≤ length edges.now }
    ensures within { result ≤ length edges.now }
    ensures from { from ≤ result }
    ensures before { (k : ℕ) (s : tied.Edge) → from ≤ k → k < result → slice_get edges.now k ≡ Some s → s.from < f }
    ensures here { (s : tied.Edge) → slice_get edges.now result ≡ Some s → f ≤ s.from }
{
    let mut at = from;
    while at < edges.len() && edges[at].from < f {
        at += 1;
    }
    at
}
