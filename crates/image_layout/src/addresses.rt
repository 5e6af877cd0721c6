ghost use Rattle.std.specs.Prelude.{◌≡◌, ◌≤◌, nat_eq, All};
ghost use Rattle.std.specs.List.{position_or_len};
ghost use Rattle.ir_core.specs.declared.limits.TheConstants.{MOST_DATA};
ghost use Rattle.rv_select.specs.Linked.{address_of};
ghost use Rattle.image_layout.specs.Addresses.{link_in};

use ir_core::SymId;
use module_rules::Numbers;
use oi_base::FuncId;
use rv_isa::DATA_START;
use std::marker::Model;

/// The addresses of a module's functions and globals, and the globals' names. Contracts see them as lists.
#[derive(Drop)]
pub struct Addresses {
    entries: Vec<u32>,
    places: Vec<u32>,
    names: Numbers,
}

impl Model for Addresses {
    ghost use Rattle.std.specs.Prelude.{◌≤◌, All};
    ghost use Rattle.ir_core.specs.declared.limits.TheConstants.{MOST_DATA};
    ghost use Rattle.image_layout.specs.Addresses.{Located};

    ghost Value = { Located };

    ghost view = { λ a. record { entries = a.entries.items; places = a.places.items; names = a.names } };

    ghost invariant = { λ a. All (λ p. p ≤ MOST_DATA) a.places.items };
}

impl Addresses {
    /// Those with the functions' entries, the places of globals in bytes from the data's start, and the globals' names.
    pub(crate) fn of(entries: Vec<u32>, places: Vec<u32>, names: Numbers) -> Addresses
        requires { All (λ p. p ≤ MOST_DATA) places.items }
        ensures { result ≡ record { entries = entries.items; places = places.items; names = names } }
    {
        Addresses {
            entries,
            places,
            names,
        }
    }

    /// Where a function's code begins.
    pub(crate) fn entry(&self, f: FuncId) -> u32
        ensures { result ≡ (link_in self.now).entry f.0 }
    {
        self.entries.get(f.0 as usize).copied().unwrap_or(0)
    }

    /// Where a global begins.
    pub(crate) fn global_at(&self, global: usize) -> u32
        ensures { result ≡ (link_in self.now).global_at global }
    {
        DATA_START + self.places.get(global).copied().unwrap_or(0)
    }

    /// The address so many bytes after a global.
    pub(crate) fn address_of(&self, global: usize, offset: u32) -> u32
        ensures { result ≡ address_of (link_in self.now) global offset }
    {
        self.global_at(global).wrapping_add(offset)
    }

    /// The number of the global with a name, or the number of all globals.
    #[tactic(auto, using(crate::proofs::GlobalNames::not_among))]
    pub(crate) fn number_of(&self, name: SymId) -> usize
        ensures { result ≡ position_or_len (nat_eq name.0) self.now.names }
    {
        match self.names.position(name.0) {
            Some(number) => number,
            None => self.names.as_slice().len(),
        }
    }
}
