ghost use Rattle.std.specs.Prelude.{IfSome, OnSome, IfNone};
ghost use Rattle.decisions.specs.Maps.{IsAt, IsAbsent};
ghost use Rattle.oi_base.specs.Ascending.{IsAscending};

use oi_base::SiteId;

/// Where a site stands among ascending sites.
pub fn place_of(sites: &[SiteId], s: SiteId) -> Option<usize>
    requires { IsAscending sites.now }
    ensures found { IfSome result (IsAt sites.now s) }
    ensures absent { IfNone result (IsAbsent sites.now s) }
{
    sites.binary_search_by_key(&s.0, |x| x.0).ok()
}
