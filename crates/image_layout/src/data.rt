ghost use Rattle.std.specs.Prelude.{◌≡◌, ◌≤◌, ◌+◌, All, IfOk, map};
ghost use Rattle.std.specs.Int.{next_multiple_of};
ghost use Rattle.ir_core.specs.declared.limits.TheConstants.{MOST_DATA};
ghost use Rattle.ir_core.specs.Constants.{aligned_as, global_memory};
ghost use Rattle.module_rules.specs.Faults.{global_number};
ghost use Rattle.image_layout.specs.Addresses.{places, end_of, link_in};
ghost use Rattle.image_layout.specs.DataBytes.{bytes_from};
ghost use Rattle.image_layout.specs.Initialisers.{IsPlaceable};

use crate::addresses::Addresses;
use crate::initialisers::{padding, push_init, push_padding, size_in};
use ir_core::{GlobalVar, Module, align_of};
use oi_base::{Items, NoMemory, Text};
use std::alloc::Global;

/// Where each global begins, in bytes from the data's start.
pub(crate) fn places(alloc: Global, m: &Module) -> Result<Vec<u32>, NoMemory>
    requires globals { All (IsPlaceable m.now) m.now.globals }
    requires fits { end_of 0 (global_memory m.now) ≤ MOST_DATA }
    ensures places { IfOk result (λ ps. ps.items ≡ places 0 (global_memory m.now)) }
    ensures low { IfOk result (λ ps. All (λ p. p ≤ MOST_DATA) ps.items) }
{
    let mut places = Vec::new(alloc);
    let mut end = 0;
    for global in m.globals.as_slice() {
        let place = place_after(m, end, global);
        places.push(place)?;
        end = place + size_in(m, &global.ty);
    }
    Ok(places)
}

/// Where a global begins after others that end at a place.
fn place_after(m: &Module, end: u32, global: &GlobalVar) -> u32
    requires global { IsPlaceable m.now global.now }
    requires end { end ≤ MOST_DATA }
    ensures place { result ≡ next_multiple_of end (aligned_as m.now.types.defs global.now.align global.now.ty) }
    ensures bound { result ≤ MOST_DATA + 16 }
{
    end + padding(end as usize, alignment(m, global)) as u32
}

/// The bytes of the globals, and zeros between them.
pub(crate) fn data_bytes(alloc: Global, m: &Module, addresses: &Addresses) -> Result<Text, NoMemory>
    requires globals { All (IsPlaceable m.now) m.now.globals }
    requires names { addresses.now.names ≡ map global_number m.now.globals }
    ensures { IfOk result (λ bytes. bytes ≡ bytes_from (link_in addresses.now) 0 (global_memory m.now)) }
{
    let mut bytes = Vec::new(alloc);
    for global in m.globals.as_slice() {
        push_padding(&mut bytes, 0, alignment(m, global))?;
        push_init(&mut bytes, m, addresses, &global.init, &global.ty)?;
    }
    Ok(Items::from_vec(bytes))
}

/// The alignment of a global: the one that is stated, or else its type's.
fn alignment(m: &Module, global: &GlobalVar) -> u32
    requires { IsPlaceable m.now global.now }
    ensures { result ≡ aligned_as m.now.types.defs global.now.align global.now.ty }
{
    match global.align {
        Some(align) => align,
        None => align_of(m, &global.ty),
    }
}
