ghost use Rattle.std.specs.Prelude.{◌≡◌, All};
ghost use Rattle.frame_layout.specs.Homes.{IsLow};
ghost use Rattle.frame_layout.specs.Offsets.{slot_of, shadow_of, place_of, home_of};

use crate::homes::Home;
use oi_base::RegId;
use std::marker::Model;

/// The frame of a body: where each register is kept, in bytes from the frame's start.
#[derive(Debug, Drop)]
pub struct Frame {
    bytes: u32,
    homes: Vec<Home>,
}

impl Model for Frame {
    ghost use Rattle.std.specs.Prelude.{All};
    ghost use Rattle.frame_layout.specs.Offsets.{Offsets};

    ghost Value = { Offsets };

    ghost use Rattle.frame_layout.specs.Homes.{IsLow};

    ghost view = { λ f. record { bytes = f.bytes; homes = f.homes.items } };

    ghost invariant = { λ f. All IsLow f.homes.items };
}

impl Frame {
    pub(crate) fn new(bytes: u32, homes: Vec<Home>) -> Frame
        requires { All IsLow homes.items }
        ensures { result ≡ record { bytes = bytes; homes = homes.items } }
    {
        Frame { bytes, homes }
    }

    /// The size in bytes, a multiple of 16.
    pub fn bytes(&self) -> u32
        ensures { result ≡ self.now.bytes }
    {
        self.bytes
    }

    /// The offset of a register's slot; allocas have none.
    pub fn slot(&self, r: RegId) -> Option<u32>
        ensures { result ≡ slot_of self.now r.0 }
    {
        self.home(r).slot()
    }

    /// The offset of a phi's shadow, which holds its next value until control reaches its block.
    pub fn shadow(&self, r: RegId) -> Option<u32>
        ensures { result ≡ shadow_of self.now r.0 }
    {
        self.home(r).shadow()
    }

    /// The offset of the memory of an alloca.
    pub fn place(&self, r: RegId) -> Option<u32>
        ensures { result ≡ place_of self.now r.0 }
    {
        self.home(r).place()
    }

    fn home(&self, r: RegId) -> Home
        ensures value { result ≡ home_of self.now r.0 }
        ensures low { IsLow result }
    {
        match self.homes.get(r.0 as usize) {
            Some(home) => *home,
            None => Home::NoHome,
        }
    }
}
