ghost use Rattle.std.specs.Prelude.{◌≡◌, Some, IsSome};
ghost use Rattle.decisions.specs.Maps.{label_of};
ghost use Rattle.component_split.specs.Graph.{is_open, joins};
ghost use Rattle.component_split.specs.Over.{caller_of, callee_of, labels, IsCandidateNumber};

use call_graph::CallGraph;
use decisions::{Label, Partial};
use oi_base::SiteId;

/// The functions of a site, as positions among those of the module or of a set.
#[derive(Clone, Copy)]
pub struct Ends {
    pub caller: usize,
    pub callee: usize,
}

/// The functions of a candidate.
pub fn ends_of(g: &CallGraph, site: SiteId) -> Ends
    requires { IsCandidateNumber g.now site.0 }
    ensures caller { result.caller ≡ caller_of g.now site.0 }
    ensures callee { result.callee ≡ callee_of g.now site.0 }
{
    Ends {
        caller: g.caller(site).0 as usize,
        callee: g.callee(site).0 as usize,
    }
}

/// Whether a site that the map holds isn't kept.
pub fn joins(p: &Partial, site: SiteId) -> bool
    requires { IsSome (label_of p.now site) }
    ensures { result ≡ joins (labels p.now site.0) }
{
    match p.get(site) {
        Some(Label::Keep) => false,
        Some(Label::Inline) => true,
        None => true,
    }
}

/// Whether a site that the map holds is undecided.
pub fn is_open(p: &Partial, site: SiteId) -> bool
    requires { IsSome (label_of p.now site) }
    ensures { result ≡ is_open (labels p.now site.0) }
{
    p.get(site).is_none()
}
