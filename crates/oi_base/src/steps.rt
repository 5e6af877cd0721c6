ghost use Rattle.std.specs.Prelude.{◌≡◌, ◌+◌, ◌<◌, min};

use std::marker::Model;
use std::sync::ledger::{Book, Ledger, Share};

/// A counter of work that only `tick` raises. Contracts see it as its count, which has no greatest number;
/// the eight bytes that it takes serve `count`.
#[derive(Drop)]
pub struct Steps<L: Ledger> {
    book: Book<L>,
    share: Share<L>,
    seen: u64,
}

impl<L: Ledger> Model for Steps<L> {
    ghost use Rattle.std.specs.Prelude.{◌≡◌, ◌<◌, ℕ, min};

    ghost Value = { ℕ };

    ghost view = { λ s. s.book.total };

    ghost invariant = { λ s. (0 < s.share.parts) × (s.seen ≡ min s.book.total 18446744073709551615) };
}

impl<L: Ledger> Steps<L> {
    /// A counter at zero, from a newly opened ledger's book and its share.
    pub fn start(book: Book<L>, share: Share<L>) -> Steps<L>
        requires zero { book.total ≡ 0 }
        requires backed { 0 < share.parts }
        ensures { result ≡ 0 }
    {
        Steps {
            book,
            share,
            seen: 0,
        }
    }

    /// Adds one.
    pub fn tick(&mut self)
        ensures { self.new ≡ self.old + 1 }
    {
        self.book.add(&mut self.share, 1);
        self.seen = self.seen.saturating_add(1);
    }

    /// The count, or the greatest `u64` where the count is greater.
    pub fn count(&self) -> u64
        ensures { result ≡ min self.now 18446744073709551615 }
    {
        self.seen
    }
}
