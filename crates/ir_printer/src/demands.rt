ghost use Rattle.std.specs.Prelude.{◌≡◌, max};
ghost use Rattle.ir_printer.specs.Order.{span_after, demand_after, demand, no_demand, known_beyond, fits};

use crate::marks::Mark;
use oi_base::Items;

/// Of names in order of appearance: how many must have come before, so that each of them is one of those or the next
/// one, and how many have come after them.
#[derive(Clone, Copy, Debug, PartialEq, Eq)]
pub struct Span {
    pub need: usize,
    pub reach: usize,
}

impl Span {
    const NONE: Span = Span { need: 0, reach: 0 };

    /// One more name appears.
    fn then(self, name: u32) -> Span
        ensures { result ≡ span_after self name }
    {
        let at = name as usize;
        Span {
            need: if at <= self.reach {
                self.need
            } else {
                self.need.max(at)
            },
            reach: self.reach.max(at + 1),
        }
    }
}

/// What an entity asks of those before it, and what it brings.
#[derive(Clone, Copy, Debug, PartialEq, Eq)]
pub struct Demand {
    pub symbols: Span,
    pub types: Span,
}

impl Demand {
    /// That of an entity with these marks.
    pub fn of(marks: &[Mark]) -> Demand
        ensures { result ≡ demand marks.now }
    {
        let mut demand = Demand {
            symbols: Span::NONE,
            types: Span::NONE,
        };
        for mark in marks {
            demand = demand.then(mark);
        }
        demand
    }

    fn then(self, mark: &Mark) -> Demand
        ensures { result ≡ demand_after self mark.now }
    {
        match mark {
            Mark::Symbol(name) => Demand {
                symbols: self.symbols.then(name.0),
                types: self.types,
            },
            Mark::TypeName(name) => Demand {
                symbols: self.symbols,
                types: self.types.then(name.0),
            },
            _ => self,
        }
    }
}

/// How many symbols and type names have come.
#[derive(Clone, Copy, Debug, PartialEq, Eq)]
pub struct Known {
    pub symbols: usize,
    pub types: usize,
}

impl Known {
    pub const NOTHING: Known = Known {
        symbols: 0,
        types: 0,
    };

    /// What is known after an entity.
    pub fn then(self, demand: Demand) -> Known
        ensures { result ≡ known_beyond self demand }
    {
        Known {
            symbols: self.symbols.max(demand.symbols.reach),
            types: self.types.max(demand.types.reach),
        }
    }

    /// Whether an entity's new names are the next ones of both lists.
    pub fn fits(self, demand: Demand) -> bool
        ensures { result ≡ fits self demand }
    {
        demand.symbols.need <= self.symbols && demand.types.need <= self.types
    }
}

/// The demands of a module's entities, by their kinds.
#[derive(Drop)]
pub struct Demands {
    pub types: Items<Demand>,
    pub globals: Items<Demand>,
    pub funcs: Items<Demand>,
    pub declared: Items<Demand>,
}
