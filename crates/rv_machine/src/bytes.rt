//! Numbers in bytes, little-endian.

ghost use Rattle.std.specs.Prelude.{◌≡◌, ◌+◌, ◌%◌, ◌^◌, ◌<◌, ◌≤◌, length, ℕ, IfOk};
ghost use Rattle.rv_isa.specs.Memory.{read, write, with_byte};
ghost use Rattle.rv_machine.specs.Bytes.{held, size_of};

use oi_base::NoMemory;
use std::alloc::Global;

/// How many bytes an access has.
#[derive(Clone, Copy)]
pub enum Size {
    Byte,
    Half,
    Word,
}

impl Size {
    /// The number of bytes: 1, 2 or 4.
    pub fn bytes(self) -> u32
        ensures { result ≡ size_of self }
    {
        match self {
            Size::Byte => 1,
            Size::Half => 2,
            Size::Word => 4,
        }
    }
}

/// So many zero bytes.
#[tactic(auto, using(crate::proofs::ZeroArrays::held_replicate))]
pub fn zeros(alloc: Global, len: usize) -> Result<Vec<u8>, NoMemory>
    ensures len { IfOk result (λ v. length v.items ≡ len) }
    ensures zeros { IfOk result (λ v. (q : ℕ) → held v.items q ≡ 0) }
{
    Ok(vec![in alloc; 0; len]?)
}

/// The number of the bytes at a place.
#[tactic(auto, using(crate::proofs::Numbers::read_one, crate::proofs::Numbers::read_two))]
pub fn number_at(bytes: &[u8], at: usize, size: Size) -> u32
    requires { at + size_of size ≤ length bytes.now }
    ensures value { result ≡ read (held bytes.now) (size_of size) at }
    ensures below { result < 256 ^ size_of size }
{
    match size {
        Size::Byte => u32::from(bytes[at]),
        Size::Half => u32::from(bytes[at]) + 256 * u32::from(bytes[at + 1]),
        Size::Word => word_at(bytes, at),
    }
}

/// The number of the four bytes at a place.
#[tactic(auto, using(crate::proofs::Numbers::read_four))]
fn word_at(bytes: &[u8], at: usize) -> u32
    requires { at + 4 ≤ length bytes.now }
    ensures { result ≡ read (held bytes.now) 4 at }
{
    u32::from(bytes[at])
        + 256
            * (u32::from(bytes[at + 1])
                + 256 * (u32::from(bytes[at + 2]) + 256 * u32::from(bytes[at + 3])))
}

/// Puts the low byte of a number at a place.
fn put_byte(bytes: &mut [u8], at: usize, number: u32)
    requires { at < length bytes.old }
    ensures bytes { held bytes.new ≡ with_byte (held bytes.old) at (number % 256) }
    ensures len { length bytes.new ≡ length bytes.old }
{
    bytes[at] = (number % 256) as u8;
}

/// Puts the low bytes of a number at a place.
#[tactic(auto, using(crate::proofs::Numbers::write_one, crate::proofs::Numbers::write_two))]
pub fn put_number(bytes: &mut [u8], at: usize, size: Size, number: u32)
    requires { at + size_of size ≤ length bytes.old }
    ensures bytes { held bytes.new ≡ write (held bytes.old) (size_of size) at number }
    ensures len { length bytes.new ≡ length bytes.old }
{
    match size {
        Size::Byte => put_byte(bytes, at, number),
        Size::Half => {
            put_byte(bytes, at, number);
            put_byte(bytes, at + 1, number >> 8);
        }
        Size::Word => put_word(bytes, at, number),
    }
}

/// Puts a word at a place.
#[tactic(auto, using(crate::proofs::Numbers::write_four))]
fn put_word(bytes: &mut [u8], at: usize, word: u32)
    requires { at + 4 ≤ length bytes.old }
    ensures bytes { held bytes.new ≡ write (held bytes.old) 4 at word }
    ensures len { length bytes.new ≡ length bytes.old }
{
    put_byte(bytes, at, word);
    put_byte(bytes, at + 1, word >> 8);
    put_byte(bytes, at + 2, word >> 16);
    put_byte(bytes, at + 3, word >> 24);
}
