ghost use Rattle.std.specs.Prelude.{◌≡◌, ◌≤◌, All, IfOk, IfErr, map};
ghost use Rattle.ir_core.specs.Proper.{IsProper};
ghost use Rattle.ir_core.specs.Valid.{IsValid};
ghost use Rattle.module_rules.specs.Faults.{global_number};
ghost use Rattle.elf_object.specs.declared.image.TheConstants.{LARGEST_TEXT};
ghost use Rattle.rv_select.specs.Pending.{IsItem};
ghost use Rattle.image_layout.specs.Addresses.{link_in};
ghost use Rattle.image_layout.specs.Codes.{AreCodes, Links};
ghost use Rattle.image_layout.specs.Image.{image, text_size};
ghost use Rattle.image_layout.specs.Faults.{IsRefused};

use crate::addresses::Addresses;
use crate::data::{data_bytes, places};
use crate::entries::entries;
use crate::faults::ImageFault;
use crate::symbols::symbols;
use crate::text::{text, text_size};
use elf_object::{Image, LARGEST_TEXT};
use ir_core::{Module, Verified};
use module_rules::global_numbers;
use oi_base::{FuncId, NoMemory};
use rv_select::Code;
use std::alloc::Global;

/// The image of a module's codes: what its text begins with and the codes one after another, with the addresses of
/// functions and globals filled in, the bytes of the globals, and the symbols.
///
/// The codes are those of definitions of the module in text order, that of `main` among them; the functions that they
/// call have codes, and the globals whose addresses they take are the module's. It takes time linear in the codes and in
/// the initialisers of the globals.
///
/// It answers `TooLarge` exactly where the text would have more than `LARGEST_TEXT` bytes.
pub fn image(alloc: Global, v: &Verified, codes: &[(FuncId, Code)]) -> Result<Image, ImageFault>
    requires codes { AreCodes v.now codes.now }
    ensures image { IfOk result (λ i. i ≡ image v.now codes.now) }
    ensures fits { IfOk result (λ i. text_size v.now codes.now ≤ LARGEST_TEXT) }
    ensures refused { IfErr result (λ e. IsRefused v.now codes.now e) }
{
    let m = v.module();
    let size = text_size(codes);
    if size > LARGEST_TEXT as u64 {
        return Err(ImageFault::TooLarge(size));
    }
    Ok(image_of(alloc, m, codes)?)
}

/// The image, where the text is not too large.
fn image_of(alloc: Global, m: &Module, codes: &[(FuncId, Code)]) -> Result<Image, NoMemory>
    requires proper { IsProper m.now }
    requires valid { IsValid m.now }
    requires codes { AreCodes m.now codes.now }
    requires items { All (λ c. All IsItem c.1) codes.now }
    requires fits { text_size m.now codes.now ≤ LARGEST_TEXT }
    ensures { IfOk result (λ i. i ≡ image m.now codes.now) }
{
    let addresses = addresses(alloc, m, codes)?;
    let text = text(alloc, m, &addresses, codes)?;
    let data_bytes = data_bytes(alloc, m, &addresses)?;
    let symbols = symbols(alloc, m, &addresses, codes)?;
    Ok(Image {
        text,
        data_bytes,
        symbols,
    })
}

/// The addresses of the functions with codes and of the globals.
fn addresses(alloc: Global, m: &Module, codes: &[(FuncId, Code)]) -> Result<Addresses, NoMemory>
    requires proper { IsProper m.now }
    requires valid { IsValid m.now }
    requires codes { AreCodes m.now codes.now }
    requires fits { text_size m.now codes.now ≤ LARGEST_TEXT }
    ensures links { IfOk result (λ a. Links m.now codes.now (link_in a)) }
    ensures names { IfOk result (λ a. a.names ≡ map global_number m.now.globals) }
{
    let entries = entries(alloc, codes)?;
    let places = places(alloc, m)?;
    let names = global_numbers(alloc, m.globals.as_slice())?;
    Ok(Addresses::of(entries, places, names))
}
