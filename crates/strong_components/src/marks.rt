ghost use Rattle.std.specs.Prelude.{◌≡◌};
ghost use Rattle.strong_components.specs.Marks.{mark_at, are_joined};

use crate::walk::Mark;

/// What is known of a node; nothing of one beyond the list.
pub fn mark_at(marks: &[Mark], f: usize) -> Mark
    ensures { result ≡ mark_at marks.now f }
{
    match marks.get(f) {
        Some(mark) => *mark,
        None => Mark::Unseen,
    }
}

/// Whether both nodes are in components, and in one.
pub fn are_joined(a: Mark, b: Mark) -> bool
    ensures { result ≡ are_joined a b }
{
    match (a, b) {
        (Mark::Closed(a), Mark::Closed(b)) => a == b,
        _ => false,
    }
}
