//! Where the functions of codes begin, and which of them is `main`.

ghost use Rattle.std.specs.Prelude.{◌≡◌, ◌≤◌, ◌<◌, ◌*◌, ℕ, AllPairs, IfOk, length, unwrap_or, slice_get};
ghost use Rattle.std.specs.List.{flat_map};
ghost use Rattle.ir_core.specs.declared.limits.TheConstants.{MOST_FUNCTIONS};
ghost use Rattle.ir_core.specs.declared.module.Module.{Module};
ghost use Rattle.ir_core.specs.Source.{main_number};
ghost use Rattle.elf_object.specs.declared.image.TheConstants.{LARGEST_TEXT};
ghost use Rattle.image_layout.specs.Addresses.{entry};
ghost use Rattle.image_layout.specs.Codes.{HasCode};
ghost use Rattle.image_layout.specs.Image.{items_of};

use crate::text::STUB_SIZE;
use ir_core::Module;
use module_rules::has_main::is_main;
use oi_base::{FuncId, NoMemory};
use rv_isa::TEXT_START;
use rv_select::Code;
use std::alloc::Global;

/// The number of `main`; that of the functions where there is none.
pub fn main_function(m: &Module) -> FuncId
    requires few { length m.now.funcs ≤ MOST_FUNCTIONS }
    ensures { result.0 ≡ main_number m.now }
{
    for (number, func) in m.funcs.as_slice().iter().enumerate() {
        if is_main(m, func) {
            return FuncId(number as u32);
        }
    }
    FuncId(m.funcs.len() as u32)
}

/// Where the code of each function begins, by the function's number; 0 where a function has none.
pub(crate) fn entries(alloc: Global, codes: &[(FuncId, Code)]) -> Result<Vec<u32>, NoMemory>
    requires ascending { AllPairs (λ a b. a.0.0 < b.0.0) codes.now }
    requires fits { 4 * length (flat_map items_of codes.now) ≤ LARGEST_TEXT }
    ensures { IfOk result (λ entries. (m : Module) (f : ℕ) → HasCode codes.now f → unwrap_or (slice_get entries.items f) 0 ≡ entry m codes.now f) }
{
    let mut entries = Vec::new(alloc);
    let mut at = TEXT_START + STUB_SIZE;
    for (f, code) in codes {
        entries.resize(f.0 as usize, 0)?;
        entries.push(at)?;
        at += 4 * code.len() as u32;
    }
    Ok(entries)
}
