//! Where an access lies in the parts of memory.

ghost use Rattle.std.specs.Prelude.{◌≡◌, ◌+◌, ◌<◌, ◌≤◌, ◌^◌, false, MatchOption};
ghost use Rattle.rv_isa.specs.Memory.{touches_guard, is_between, is_aligned};
ghost use Rattle.rv_machine.specs.Bytes.{size_of};

use crate::bytes::Size;
use rv_isa::{GUARD_START, STACK_START};

/// One of an access's bytes lies in the guard.
pub fn touches_guard(address: u32, size: Size) -> bool
    ensures { result ≡ touches_guard address (size_of size) }
{
    address < STACK_START && GUARD_START < address + size.bytes()
}

/// The address is a multiple of the access's size.
pub fn is_aligned(address: u32, size: Size) -> bool
    ensures { result ≡ is_aligned address (size_of size) }
{
    address % size.bytes() == 0
}

/// The place of an access in a part of memory, from its start and its length, if the part has all of it.
pub fn place_in(start: u32, len: usize, address: u32, size: Size) -> Option<usize>
    ensures { MatchOption result (is_between start (start + len) address (size_of size) ≡ false) (λ at. (address ≡ start + at) × (at + size_of size ≤ len)) }
{
    if address < start {
        return None;
    }
    let at = (address - start) as usize;
    if at + size.bytes() as usize <= len {
        Some(at)
    } else {
        None
    }
}
