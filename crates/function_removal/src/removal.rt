ghost use Rattle.std.specs.Prelude.{◌↔◌, ◌≡◌, IsTrue};
ghost use Rattle.oi_base.specs.declared.ids.SiteId as site_ids;
ghost use Rattle.call_graph.specs.Graph.{IsNumber};
ghost use Rattle.function_removal.specs.Kept.{IsReached, IsExternal, HasKeep, KeepsCall, IsKept};

use call_graph::CallGraph;
use decisions::{Decisions, Label};
use oi_base::{FuncId, SiteId};

/// Whether a reached function is kept under a map: it is external, or a site with a reached caller calls it that is not
/// labelled inline. The time is that of one walk over the sites.
pub fn kept(g: &CallGraph, d: &Decisions, f: FuncId) -> bool
    requires { IsReached g.now f }
    ensures { IsTrue result ↔ IsKept g.now d.now f }
{
    g.external(f) || has_kept_call(g, d, f)
}

fn has_kept_call(g: &CallGraph, d: &Decisions, f: FuncId) -> bool
    ensures { IsTrue result ↔ ((s : site_ids.SiteId) × KeepsCall g.now d.now f s) }
{
    for n in 0..g.sites() {
        if keeps_call(g, d, f, SiteId(n + 1)) {
            return true;
        }
    }
    false
}

/// Whether a site is kept, has a reached caller and calls the function.
fn keeps_call(g: &CallGraph, d: &Decisions, f: FuncId, s: SiteId) -> bool
    requires { IsNumber g.now s }
    ensures { IsTrue result ↔ KeepsCall g.now d.now f s }
{
    g.callee(s).0 == f.0 && is_reached(g, g.caller(s)) && is_kept(d, s)
}

fn is_reached(g: &CallGraph, f: FuncId) -> bool
    ensures { IsTrue result ↔ IsReached g.now f }
{
    f.0 < g.funcs() && g.reached(f)
}

fn is_kept(d: &Decisions, s: SiteId) -> bool
    ensures { IsTrue result ↔ HasKeep d.now s }
{
    match d.label(s) {
        Some(Label::Inline) => false,
        Some(Label::Keep) => true,
        None => true,
    }
}
