ghost use Rattle.std.specs.Prelude.{◌≡◌, ◌+◌, ◌≤◌, length, IfOk, Some};
ghost use Rattle.ir_printer.specs.Order.{first_fits, first_left, turn, first_known, rest, queue_of, without_first, order};

use crate::demands::{Demand, Demands, Known};
use oi_base::NoMemory;
use std::alloc::Global;
use std::marker::Model;

/// A kind of entities, or of the lines that say the layout and the triple.
#[derive(Clone, Copy, Debug, PartialEq, Eq)]
pub enum Kind {
    Target,
    Type,
    Global,
    Func,
    Declared,
}

/// The demands of the entities that are not placed yet. Contracts see their lists.
#[derive(Drop)]
struct Waiting<'a> {
    types: &'a [Demand],
    globals: &'a [Demand],
    funcs: &'a [Demand],
    declared: &'a [Demand],
}

impl<'a> Model for Waiting<'a> {
    ghost use Rattle.ir_printer.specs.declared.demands.Demands.{Demands};

    ghost Value = { Demands };

    ghost view = { λ w. record { types = w.types.now; globals = w.globals.now; funcs = w.funcs.now; declared = w.declared.now } };
}

impl<'a> Waiting<'a> {
    fn all(demands: &'a Demands) -> Waiting<'a>
        ensures { result ≡ demands.now }
    {
        Waiting {
            types: demands.types.as_slice(),
            globals: demands.globals.as_slice(),
            funcs: demands.funcs.as_slice(),
            declared: demands.declared.as_slice(),
        }
    }

    /// The kind of the next entity.
    fn turn(&self, known: Known) -> Option<Kind>
        ensures { result ≡ turn known self.now }
    {
        if first_fits(known, self.types) {
            Some(Kind::Type)
        } else if first_fits(known, self.globals) {
            Some(Kind::Global)
        } else if first_fits(known, self.funcs) {
            Some(Kind::Func)
        } else if first_fits(known, self.declared) {
            Some(Kind::Declared)
        } else {
            self.first_left()
        }
    }

    /// The first kind of which an entity is left.
    fn first_left(&self) -> Option<Kind>
        ensures { result ≡ first_left self.now }
    {
        if !self.types.is_empty() {
            Some(Kind::Type)
        } else if !self.globals.is_empty() {
            Some(Kind::Global)
        } else if !self.funcs.is_empty() {
            Some(Kind::Func)
        } else if !self.declared.is_empty() {
            Some(Kind::Declared)
        } else {
            None
        }
    }

    /// The demands of a kind.
    fn queue(&self, kind: Kind) -> &'a [Demand]
        ensures { result.now ≡ queue_of kind self.now }
    {
        match kind {
            Kind::Target => &[],
            Kind::Type => self.types,
            Kind::Global => self.globals,
            Kind::Func => self.funcs,
            Kind::Declared => self.declared,
        }
    }

    /// Takes the first demand of a kind away.
    fn take(&mut self, kind: Kind)
        ensures { self.new ≡ without_first kind self.old }
    {
        match kind {
            Kind::Target => {}
            Kind::Type => self.types = rest(self.types),
            Kind::Global => self.globals = rest(self.globals),
            Kind::Func => self.funcs = rest(self.funcs),
            Kind::Declared => self.declared = rest(self.declared),
        }
    }
}

fn first_fits(known: Known, demands: &[Demand]) -> bool
    ensures { result ≡ first_fits known demands.now }
{
    match demands {
        [] => false,
        [first, ..] => known.fits(*first),
    }
}

fn first_known(known: Known, demands: &[Demand]) -> Known
    ensures { result ≡ first_known known demands.now }
{
    match demands {
        [] => known,
        [first, ..] => known.then(*first),
    }
}

fn rest(demands: &[Demand]) -> &[Demand]
    ensures { result.now ≡ rest demands.now }
{
    match demands {
        [] => &[],
        [_, more @ ..] => more,
    }
}

/// The kinds of a module's entities in the order of its text.
pub fn order_of(alloc: Global, demands: &Demands) -> Result<Vec<Kind>, NoMemory>
    ensures { IfOk result (λ kinds. kinds.items ≡ order demands.now) }
{
    let mut waiting = Waiting::all(demands);
    let mut known = Known::NOTHING;
    let mut kinds = Vec::new(alloc);
    while let Some(kind) = waiting.turn(known) {
        kinds.push(kind)?;
        known = first_known(known, waiting.queue(kind));
        waiting.take(kind);
    }
    Ok(kinds)
}
