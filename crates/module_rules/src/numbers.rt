ghost use Rattle.std.specs.Prelude.{◌≡◌, [], not, nat_eq, slice_get, IfOk, OnOk};
ghost use Rattle.std.specs.List.{list_any, position};
ghost use Rattle.module_rules.specs.Faults.{with_number};

use indexmap::IndexSet;
use oi_base::NoMemory;
use std::alloc::Global;
use std::marker::Model;

/// A set of numbers. Contracts see it as the list of them, in the order in which they were added.
#[derive(Drop)]
pub struct Numbers {
    set: IndexSet<u32>,
}

impl Model for Numbers {
    ghost use Rattle.std.specs.Prelude.{ℕ, List};

    ghost Value = { List ℕ };

    ghost view = { λ n. n.set.keys };
}

impl Numbers {
    pub fn new(alloc: Global) -> Numbers
        ensures { result ≡ [] }
    {
        Numbers {
            set: IndexSet::new(alloc),
        }
    }

    /// Whether a number is in the set.
    pub fn has(&self, n: u32) -> bool
        ensures { result ≡ list_any (nat_eq n) self.now }
    {
        self.set.contains(&n)
    }

    /// Where a number stands among those of the set, if it is in it.
    pub fn position(&self, n: u32) -> Option<usize>
        ensures { result ≡ position (nat_eq n) self.now }
    {
        self.set.get_index_of(&n)
    }

    /// The number at a position, from 0, if there are so many.
    pub fn get(&self, at: usize) -> Option<u32>
        ensures { result ≡ slice_get self.now at }
    {
        self.set.get_index(at).copied()
    }

    pub fn as_slice(&self) -> &[u32]
        ensures { result.now ≡ self.now }
    {
        self.set.as_slice()
    }

    /// Adds a number, and tells whether it was new.
    pub fn add(&mut self, n: u32) -> Result<bool, NoMemory>
        ensures added { IfOk result (λ new. new ≡ not (list_any (nat_eq n) self.old)) }
        ensures numbers { OnOk result (self.new ≡ with_number self.old n) }
    {
        Ok(self.set.insert(n)?)
    }
}
