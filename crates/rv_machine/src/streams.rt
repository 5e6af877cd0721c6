ghost use Rattle.std.specs.Prelude.{◌≡◌, ◌<◌, ◌≤◌, ◌↔◌, [], ◌∷◌, ◌++◌, length, IsTrue, IfOk, MatchOption};
ghost use Rattle.rv_machine.specs.State.{output_room};

use crate::bytes::zeros;
use oi_base::{NoMemory, Text};
use std::alloc::Global;
use std::marker::Model;

/// How many bytes can be put.
pub const OUTPUT_ROOM: usize = 1_048_576;

/// The streams of the environment. Contracts see what can still be got, and what was put.
#[derive(Drop)]
pub struct Streams {
    input: Text,
    got: usize,
    room: Vec<u8>,
    put: usize,
}

impl Model for Streams {
    ghost use Rattle.std.specs.Prelude.{◌≡◌, ◌≤◌, length, take, drop};
    ghost use Rattle.rv_machine.specs.State.{output_room};
    ghost use Rattle.rv_machine.specs.Streams as specs;

    ghost Value = { specs.Streams };

    ghost view = { λ s. record { input = drop s.got s.input; output = take s.put s.room.items } };

    ghost invariant = { λ s. (s.got ≤ length s.input) × (s.put ≤ output_room) × (length s.room.items ≡ output_room) };
}

impl Streams {
    /// Streams with this input, of which nothing was got, and with all the room for what is put.
    pub fn new(alloc: Global, input: Text) -> Result<Streams, NoMemory>
        ensures { IfOk result (λ s. (s.input ≡ input) × (s.output ≡ [])) }
    {
        Ok(Streams {
            input,
            got: 0,
            room: zeros(alloc, OUTPUT_ROOM)?,
            put: 0,
        })
    }

    /// What was put.
    pub fn output(&self) -> &[u8]
        ensures output { result.now ≡ self.now.output }
    {
        &self.room[..self.put]
    }

    /// No more bytes can be put.
    pub fn is_full(&self) -> bool
        ensures full { IsTrue result ↔ (length self.now.output ≡ output_room) }
        ensures most { length self.now.output ≤ output_room }
    {
        self.put == OUTPUT_ROOM
    }

    /// Puts a byte.
    pub fn put(&mut self, byte: u8)
        requires { length self.old.output < output_room }
        ensures { self.new ≡ record self.old { output = self.old.output ++ byte ∷ [] } }
    {
        self.room[self.put] = byte;
        self.put += 1;
    }

    /// Gets the next byte, if there is one.
    pub fn get(&mut self) -> Option<u8>
        ensures input { MatchOption result ((self.old.input ≡ []) × (self.new.input ≡ [])) (λ byte. self.old.input ≡ byte ∷ self.new.input) }
        ensures output { self.new.output ≡ self.old.output }
    {
        if self.got == self.input.len() {
            return None;
        }
        let byte = self.input.as_slice()[self.got];
        self.got += 1;
        Some(byte)
    }
}
