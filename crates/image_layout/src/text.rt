ghost use Rattle.std.specs.Prelude.{◌≡◌, ◌≤◌, ◌+◌, ◌*◌, ◌++◌, All, OnOk, IfOk, length};
ghost use Rattle.std.specs.List.{flat_map};
ghost use Rattle.ir_core.specs.declared.limits.TheConstants.{MOST_FUNCTIONS};
ghost use Rattle.ir_core.specs.declared.module.Module.{Module};
ghost use Rattle.elf_object.specs.declared.image.TheConstants.{LARGEST_TEXT};
ghost use Rattle.rv_isa.specs.Memory.{text_start};
ghost use Rattle.rv_isa.specs.Words.{InRange};
ghost use Rattle.rv_select.specs.Pending.{IsItem};
ghost use Rattle.rv_select.specs.Linked.{instruction_at, linked, stub};
ghost use Rattle.rv_select.specs.Texts.{bytes_of};
ghost use Rattle.image_layout.specs.Addresses.{link_in};
ghost use Rattle.image_layout.specs.Image.{items_of, text_items, text_size};

use crate::addresses::Addresses;
use crate::entries::main_function;
use ir_core::Module;
use oi_base::{FuncId, NoMemory, Text};
use rv_isa::{Rv, TEXT_START, X, encode};
use rv_select::{Code, Item, hi, lo};
use std::alloc::Global;

/// The size in bytes of what the text begins with.
pub(crate) const STUB_SIZE: u32 = 16;

/// The instruction that an item becomes at an address.
fn instruction_at(addresses: &Addresses, at: u32, item: Item) -> Rv
    requires { IsItem item }
    ensures instruction { result ≡ instruction_at (link_in addresses.now) at item }
    ensures range { InRange result }
{
    match item {
        Item::Word(i) => i,
        Item::CallHigh(f) => Rv::Auipc(X::RA, hi(addresses.entry(f).wrapping_sub(at))),
        Item::CallLow(f) => {
            let from = at.saturating_sub(4);
            Rv::Jalr(X::RA, X::RA, lo(addresses.entry(f).wrapping_sub(from)))
        }
        Item::AddressHigh(r, global, offset) => {
            Rv::Lui(r, hi(addresses.address_of(global as usize, offset)))
        }
        Item::AddressLow(r, global, offset) => Rv::Addi(
            r,
            r,
            lo(addresses.address_of(global as usize, offset)),
        ),
    }
}

/// Appends the words of a code that stands at an address.
fn push_items(
    text: &mut Vec<u8>,
    addresses: &Addresses,
    at: u32,
    items: &[Item],
) -> Result<(), NoMemory>
    requires items { All IsItem items.now }
    requires fits { at + 4 * length items.now ≤ 4294967295 }
    ensures { OnOk result (text.new.items ≡ text.old.items ++ bytes_of (linked (link_in addresses.now) at items.now)) }
{
    for (k, item) in items.iter().enumerate() {
        let word = encode(instruction_at(addresses, at + 4 * k as u32, *item));
        text.extend_from_slice(&word.to_le_bytes())?;
    }
    Ok(())
}

/// What the text begins with: it calls `main` and exits with its result.
fn stub(main: FuncId) -> [Item; 4]
    ensures stub { result ≡ stub main.0 }
    ensures items { All IsItem result }
{
    [
        Item::CallHigh(main),
        Item::CallLow(main),
        Item::Word(Rv::Addi(X::A7, X::ZERO, 3)),
        Item::Word(Rv::Ecall),
    ]
}

/// The size in bytes of the text of these codes.
pub(crate) fn text_size(codes: &[(FuncId, Code)]) -> u64
    requires few { length codes.now ≤ MOST_FUNCTIONS }
    ensures size { (m : Module) → result ≡ text_size m codes.now }
    ensures items { All (λ c. All IsItem c.1) codes.now }
{
    let mut size = STUB_SIZE as u64;
    for (_, code) in codes {
        size += 4 * code.as_slice().len() as u64;
    }
    size
}

/// Appends the words of codes that stand one after another from an address on.
fn push_codes(
    text: &mut Vec<u8>,
    addresses: &Addresses,
    start: u32,
    codes: &[(FuncId, Code)],
) -> Result<(), NoMemory>
    requires fits { start + 4 * length (flat_map items_of codes.now) ≤ 4294967295 }
    ensures { OnOk result (text.new.items ≡ text.old.items ++ bytes_of (linked (link_in addresses.now) start (flat_map items_of codes.now))) }
{
    let mut at = start;
    for (_, code) in codes {
        push_items(text, addresses, at, code.as_slice())?;
        at += 4 * code.len() as u32;
    }
    Ok(())
}

/// The text: what it begins with, and the codes one after another.
pub(crate) fn text(
    alloc: Global,
    m: &Module,
    addresses: &Addresses,
    codes: &[(FuncId, Code)],
) -> Result<Text, NoMemory>
    requires few { length m.now.funcs ≤ MOST_FUNCTIONS }
    requires fits { text_size m.now codes.now ≤ LARGEST_TEXT }
    ensures { IfOk result (λ text. text ≡ bytes_of (linked (link_in addresses.now) text_start (text_items m.now codes.now))) }
{
    let mut text = Vec::new(alloc);
    push_items(&mut text, addresses, TEXT_START, &stub(main_function(m)))?;
    push_codes(&mut text, addresses, TEXT_START + STUB_SIZE, codes)?;
    Ok(Text::from_vec(text))
}
