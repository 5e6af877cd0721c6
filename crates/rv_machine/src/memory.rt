ghost use Rattle.std.specs.Prelude.{◌≡◌, ◌+◌, ◌%◌, ◌≤◌, ◌<◌, ◌^◌, length, None, Some, IfOk, OnOk, IfErr};
ghost use Rattle.elf_object.specs.Image.{loaded_segments};
ghost use Rattle.rv_isa.specs.Memory.{Readable, Writable, Executable, read, write, bytes_at_load, text_start};
ghost use Rattle.rv_machine.specs.Bytes.{size_of};
ghost use Rattle.rv_machine.specs.Memory.{segments_of, bytes_of, refusal, unless_refused, fetched, IsPlaced, IsDecoded, KeepsText};

use crate::bytes::{Size, number_at, put_number, zeros};
use crate::map::{is_aligned, place_in, touches_guard};
use crate::stop::Stop;
use elf_object::Image;
use oi_base::NoMemory;
use rv_isa::{DATA_START, Rv, STACK_SIZE, STACK_START, TEXT_START, decode};
use std::alloc::Global;
use std::marker::Model;

/// A part of the memory, and a place in it.
#[derive(Clone, Copy)]
pub enum Place {
    Text(usize),
    Data(usize),
    Stack(usize),
}

/// The memory: the text, which can be read and executed, and the data and the stack, which can be read
/// and written. Contracts see the lists of the bytes of the three.
///
/// The text never changes, so its instructions are decoded once.
#[derive(Drop)]
pub struct Memory {
    text: Vec<u8>,
    code: Vec<Option<Rv>>,
    data_bytes: Vec<u8>,
    stack: Vec<u8>,
}

impl Model for Memory {
    ghost use Rattle.rv_machine.specs.Memory.{Contents, IsCoded};

    ghost Value = { Contents };

    ghost view = { λ m. record { text = m.text.items; data_bytes = m.data_bytes.items; stack = m.stack.items } };

    ghost invariant = { λ m. IsCoded (record { text = m.text.items; data_bytes = m.data_bytes.items; stack = m.stack.items }) m.code.items };
}

impl Memory {
    /// The memory at load of an image.
    pub fn at_load(alloc: Global, image: &Image) -> Result<Memory, NoMemory>
        ensures segments { IfOk result (λ m. segments_of m ≡ loaded_segments image.now) }
        ensures bytes { IfOk result (λ m. bytes_of m ≡ bytes_at_load (segments_of m)) }
    {
        let text = Vec::from_slice(alloc, image.text.as_slice())?;
        let code = decoded(alloc, &text)?;
        let data_bytes = Vec::from_slice(alloc, image.data_bytes.as_slice())?;
        let stack = zeros(alloc, STACK_SIZE as usize)?;
        Ok(Memory {
            text,
            code,
            data_bytes,
            stack,
        })
    }

    /// Where an access lies, or its stop.
    fn place(&self, address: u32, size: Size) -> Result<Place, Stop>
        ensures ok { IfOk result (IsPlaced self.now address (size_of size)) }
        ensures err { IfErr result (λ stop. refusal (segments_of self.now) Readable address (size_of size) ≡ Some stop) }
    {
        if touches_guard(address, size) {
            return Err(Stop::Stack(address));
        }
        if !is_aligned(address, size) {
            return Err(Stop::Access(address));
        }
        if let Some(at) = place_in(STACK_START, self.stack.len(), address, size) {
            return Ok(Place::Stack(at));
        }
        if let Some(at) = place_in(DATA_START, self.data_bytes.len(), address, size) {
            return Ok(Place::Data(at));
        }
        if let Some(at) = place_in(TEXT_START, self.text.len(), address, size) {
            return Ok(Place::Text(at));
        }
        Err(Stop::Access(address))
    }

    /// The number that an access reads, or its stop.
    pub fn load(&self, address: u32, size: Size) -> Result<u32, Stop>
        ensures value { result ≡ unless_refused (refusal (segments_of self.now) Readable address (size_of size)) (read (bytes_of self.now) (size_of size) address) }
        ensures below { IfOk result (λ v. v < 256 ^ size_of size) }
    {
        match self.place(address, size)? {
            Place::Text(at) => Ok(number_at(&self.text, at, size)),
            Place::Data(at) => Ok(number_at(&self.data_bytes, at, size)),
            Place::Stack(at) => Ok(number_at(&self.stack, at, size)),
        }
    }

    /// Writes the low bytes of a number, unless the access is refused: then nothing changes.
    pub fn store(&mut self, address: u32, size: Size, number: u32) -> Result<(), Stop>
        ensures ok { OnOk result ((refusal (segments_of self.old) Writable address (size_of size) ≡ None) × (bytes_of self.new ≡ write (bytes_of self.old) (size_of size) address number)) }
        ensures err { IfErr result (λ stop. (refusal (segments_of self.old) Writable address (size_of size) ≡ Some stop) × (self.new ≡ self.old)) }
        ensures keeps { KeepsText self.old self.new }
    {
        match self.place(address, size)? {
            Place::Text(_) => return Err(Stop::Access(address)),
            Place::Data(at) => put_number(&mut self.data_bytes, at, size, number),
            Place::Stack(at) => put_number(&mut self.stack, at, size, number),
        }
        Ok(())
    }

    /// The place in the text of the word that a fetch reads, or its stop.
    fn executable(&self, pc: u32) -> Result<usize, Stop>
        ensures ok { IfOk result (λ at. (pc ≡ text_start + at) × (at + 4 ≤ length self.now.text) × (at % 4 ≡ 0) × (refusal (segments_of self.now) Executable pc 4 ≡ None)) }
        ensures err { IfErr result (λ stop. refusal (segments_of self.now) Executable pc 4 ≡ Some stop) }
    {
        if touches_guard(pc, Size::Word) {
            return Err(Stop::Stack(pc));
        }
        if !is_aligned(pc, Size::Word) {
            return Err(Stop::Access(pc));
        }
        match place_in(TEXT_START, self.text.len(), pc, Size::Word) {
            Some(at) => Ok(at),
            None => Err(Stop::Access(pc)),
        }
    }

    /// The instruction at a place, or the stop of the fetch.
    pub fn fetch(&self, pc: u32) -> Result<Rv, Stop>
        ensures value { result ≡ fetched (refusal (segments_of self.now) Executable pc 4) (read (bytes_of self.now) 4 pc) }
        ensures low { IfOk result (λ _. pc + 4 < 2 ^ 32) }
    {
        let at = self.executable(pc)?;
        match self.code[at / 4] {
            Some(instruction) => Ok(instruction),
            None => Err(Stop::Illegal(number_at(&self.text, at, Size::Word))),
        }
    }
}

/// The instructions of the words of a text, in order.
fn decoded(alloc: Global, text: &[u8]) -> Result<Vec<Option<Rv>>, NoMemory>
    requires { length text.now % 4 ≡ 0 }
    ensures { IfOk result (λ code. IsDecoded text.now code.items) }
{
    let mut code = Vec::with_capacity(alloc, text.len() / 4)?;
    for k in 0..text.len() / 4 {
        code.push(decode(number_at(text, 4 * k, Size::Word)))?;
    }
    Ok(code)
}
