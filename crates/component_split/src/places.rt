ghost use Rattle.std.specs.Prelude.{◌≡◌, ◌<◌, false, true, length, slice_index, IfSome, IfNone};
ghost use Rattle.component_split.specs.Graph.{has, inside};
ghost use Rattle.component_split.specs.Over.{func_numbers, site_graph, caller_of, callee_of, IsRising, IsCandidateNumber};

use crate::states::Ends;
use call_graph::CallGraph;
use oi_base::{FuncId, SiteId};

/// Where a function stands among rising functions.
pub fn place_of(funcs: &[FuncId], f: FuncId) -> Option<usize>
    requires { IsRising (func_numbers funcs.now) }
    ensures in_range { IfSome result (λ at. at < length funcs.now) }
    ensures here { IfSome result (λ at. slice_index (func_numbers funcs.now) at ≡ f.0) }
    ensures absent { IfNone result (has (func_numbers funcs.now) f.0 ≡ false) }
{
    funcs.binary_search_by_key(&f.0, |x| x.0).ok()
}

/// Where a function stands that is among rising functions.
pub fn place_in(funcs: &[FuncId], f: FuncId) -> usize
    requires rising { IsRising (func_numbers funcs.now) }
    requires among { has (func_numbers funcs.now) f.0 ≡ true }
    ensures in_range { result < length funcs.now }
    ensures here { slice_index (func_numbers funcs.now) result ≡ f.0 }
{
    match place_of(funcs, f) {
        Some(at) => at,
        None => unreachable!(),
    }
}

/// Whether a function is among rising functions.
pub fn is_among(funcs: &[FuncId], f: FuncId) -> bool
    requires { IsRising (func_numbers funcs.now) }
    ensures { result ≡ has (func_numbers funcs.now) f.0 }
{
    place_of(funcs, f).is_some()
}

/// Whether both functions of a candidate are among rising functions.
pub fn is_inside(g: &CallGraph, funcs: &[FuncId], site: SiteId) -> bool
    requires rising { IsRising (func_numbers funcs.now) }
    requires candidate { IsCandidateNumber g.now site.0 }
    ensures { result ≡ inside (site_graph g.now) (func_numbers funcs.now) site.0 }
{
    is_among(funcs, g.caller(site)) && is_among(funcs, g.callee(site))
}

/// Where both functions of a candidate stand that is inside a set.
pub fn ends_among(g: &CallGraph, funcs: &[FuncId], site: SiteId) -> Ends
    requires rising { IsRising (func_numbers funcs.now) }
    requires candidate { IsCandidateNumber g.now site.0 }
    requires inside { inside (site_graph g.now) (func_numbers funcs.now) site.0 ≡ true }
    ensures caller_in { result.caller < length funcs.now }
    ensures callee_in { result.callee < length funcs.now }
    ensures caller { slice_index (func_numbers funcs.now) result.caller ≡ caller_of g.now site.0 }
    ensures callee { slice_index (func_numbers funcs.now) result.callee ≡ callee_of g.now site.0 }
{
    Ends {
        caller: place_in(funcs, g.caller(site)),
        callee: place_in(funcs, g.callee(site)),
    }
}
