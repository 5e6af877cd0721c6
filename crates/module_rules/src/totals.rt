ghost use Rattle.std.specs.Prelude.{◌≡◌, ◌≤◌, ◌+◌, ◌++◌, map, min, IfOk, OnOk};
ghost use Rattle.ir_core.specs.declared.limits.TheConstants.{LARGEST, MOST_DATA};
ghost use Rattle.std.specs.Int.{next_multiple_of};
ghost use Rattle.std.specs.List.Sorted.{IsPermutation};
ghost use Rattle.ir_core.specs.Parts.{listed};
ghost use Rattle.ir_core.specs.Sizes.{size};
ghost use Rattle.ir_core.specs.ValidModule.{introduced_globals, introduced_funcs, global_align, HasTooMuchData, BreaksTotals};
ghost use Rattle.module_rules.specs.First.{earliest, IsFound};
ghost use Rattle.module_rules.specs.TotalFaults.{name_size, sized, sized_names, HasNamesPast, AreNamesPast, AreInOrder};

use crate::first::{earlier, earlier_if};
use crate::measure::{align_or_least, size_up_to};
use ir_core::{Func, GlobalVar, MOST_DATA, MOST_NAME_BYTES, Module, NAME_EXTRA, SymId};
use oi_base::{NoMemory, Place};
use std::alloc::{AllocError, Global};

/// Where the data end at most.
const DATA_END: u64 = MOST_DATA as u64;

/// A name of a global or of a definition: where it is introduced, and the bytes that it adds to the sum.
#[derive(Clone, Copy, PartialEq, Eq, PartialOrd, Ord)]
struct Name {
    place: Place,
    bytes: usize,
}

/// The first global with which the data have more than 1,048,576 bytes, or global or definition with which the names up to its
/// place, each with 17 bytes more, have more than 67,108,864.
pub fn first_break(alloc: Global, m: &Module) -> Result<Option<Place>, NoMemory>
    ensures found { IfOk result (IsFound (BreaksTotals m.now)) }
{
    let names = first_past_names(alloc, m, MOST_NAME_BYTES as usize)?;
    Ok(earlier_of(first_past_data(m), names))
}

/// The earlier of two places, each of which may be none.
fn earlier_of(first: Option<Place>, other: Option<Place>) -> Option<Place>
    ensures { result ≡ earliest first (listed other) }
{
    match other {
        Some(place) => earlier(first, place),
        None => first,
    }
}

/// The first global with which the data are too large.
fn first_past_data(m: &Module) -> Option<Place>
    ensures { IsFound (HasTooMuchData m.now) result }
{
    let mut end = 0;
    let mut first = None;
    for global in m.globals.as_slice() {
        end = end_with(m, end, global);
        first = earlier_if(first, end > DATA_END, global.place);
    }
    first
}

/// Where the data end with one global more, or one byte after the most where that is further.
fn end_with(m: &Module, end: u64, global: &GlobalVar) -> u64
    requires { end ≤ (MOST_DATA + 1) }
    ensures { result ≡ min (next_multiple_of end (global_align m.now.types.defs global.now) + min (size m.now.types.defs global.now.ty) (LARGEST + 1)) (MOST_DATA + 1) }
{
    let start = round_up(end, global_align(m, global));
    (start + u64::from(size_up_to(m, &global.ty))).min(DATA_END + 1)
}

/// The next multiple of `align` that is not below `end`.
fn round_up(end: u64, align: u32) -> u64
    requires { end ≤ (MOST_DATA + 1) }
    ensures multiple { result ≡ next_multiple_of end align }
    ensures bound { result ≤ 4296015873 }
{
    end.checked_next_multiple_of(u64::from(align))
        .unwrap_or(end)
}

/// A global's alignment as it is stated, where 0 counts as 1, or else that of its type.
fn global_align(m: &Module, global: &GlobalVar) -> u32
    ensures { result ≡ global_align m.now.types.defs global.now }
{
    match global.align {
        Some(align) => align.max(1),
        None => align_or_least(m, &global.ty),
    }
}

/// The first name with which those up to its place have more bytes than the most.
fn first_past_names(alloc: Global, m: &Module, most: usize) -> Result<Option<Place>, NoMemory>
    ensures { IfOk result (IsFound (HasNamesPast most m.now)) }
{
    let names = in_order(sized_names(alloc, m)?);
    Ok(first_past(names.as_slice(), most))
}

/// The names of globals and definitions.
fn sized_names(alloc: Global, m: &Module) -> Result<Vec<Name>, AllocError>
    ensures { IfOk result (λ names. names.items ≡ sized_names m.now) }
{
    let mut names = Vec::new(alloc);
    add_globals(&mut names, m, m.globals.as_slice())?;
    add_funcs(&mut names, m, m.funcs.as_slice())?;
    Ok(names)
}

fn add_globals(names: &mut Vec<Name>, m: &Module, globals: &[GlobalVar]) -> Result<(), AllocError>
    ensures { OnOk result (names.new.items ≡ names.old.items ++ map (λ g. sized m.now (record { name = g.name; place = g.place })) globals.now) }
{
    for global in globals {
        names.push(sized(m, global.name, global.place))?;
    }
    Ok(())
}

fn add_funcs(names: &mut Vec<Name>, m: &Module, funcs: &[Func]) -> Result<(), AllocError>
    ensures { OnOk result (names.new.items ≡ names.old.items ++ map (λ f. sized m.now (record { name = f.name; place = f.place })) funcs.now) }
{
    for func in funcs {
        names.push(sized(m, func.name, func.place))?;
    }
    Ok(())
}

fn sized(m: &Module, name: SymId, place: Place) -> Name
    ensures { result ≡ sized m.now (record { name = name; place = place }) }
{
    Name {
        place,
        bytes: name_size(m, name),
    }
}

/// The bytes of a name, with 17 more.
fn name_size(m: &Module, name: SymId) -> usize
    ensures { result ≡ name_size m.now name }
{
    match m.symbols.get(name.0 as usize) {
        Some(text) => text.as_slice().len() + NAME_EXTRA as usize,
        None => NAME_EXTRA as usize,
    }
}

/// The names in the order of their places.
fn in_order(names: Vec<Name>) -> Vec<Name>
    ensures same { IsPermutation names.items result.items }
    ensures order { AreInOrder result.items }
{
    let mut sorted = names;
    sorted.sort_unstable();
    sorted
}

/// The place with which the sum of names in the order of their places comes to be greater than the most.
fn first_past(names: &[Name], most: usize) -> Option<Place>
    requires { AreInOrder names.now }
    ensures { IsFound (AreNamesPast most names.now) result }
{
    let mut left = most;
    for name in names {
        if name.bytes > left {
            return Some(name.place);
        }
        left -= name.bytes;
    }
    None
}
