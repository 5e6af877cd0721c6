ghost use Rattle.std.specs.Prelude.{◌≡◌};
ghost use Rattle.ir_core.specs.Operands.{is_up_to};
ghost use Rattle.module_rules.specs.First.{earlier, earliest};
ghost use Rattle.module_rules.specs.Faults.{place_if};

use oi_base::Place;

/// The earlier of two places, of which the first may be none yet.
pub fn earlier(first: Option<Place>, p: Place) -> Option<Place>
    ensures { result ≡ earlier first p }
{
    match first {
        Some(q) if is_up_to(q, p) => Some(q),
        _ => Some(p),
    }
}

/// The earlier of two places, where the second counts.
pub fn earlier_if(first: Option<Place>, counts: bool, p: Place) -> Option<Place>
    ensures { result ≡ earliest first (place_if counts p) }
{
    if counts { earlier(first, p) } else { first }
}

/// Whether a place is the other or stands before it.
pub fn is_up_to(p: Place, q: Place) -> bool
    ensures { result ≡ is_up_to p q }
{
    p.line < q.line || p.line == q.line && p.column <= q.column
}
