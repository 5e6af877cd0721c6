ghost use Rattle.std.specs.Prelude.{◌≡◌, ◌<◌, ◌≤◌, ◌^◌, All, IfOk, length, replicate};
ghost use Rattle.frame_layout.specs.declared.homes.Home.TheVariants as home;
ghost use Rattle.frame_layout.specs.declared.laying.TheConstants.{LARGEST_FRAME};
ghost use Rattle.frame_layout.specs.Parts.{begin_of, end_of_all, IsNeed, IsPart};
ghost use Rattle.frame_layout.specs.Homes.{home_at, with_homes, slot_in, shadow_in, place_in, IsLow};

use crate::parts::{Need, Part};
use oi_base::NoMemory;
use std::alloc::Global;

/// Where a frame keeps a register. Offsets are in bytes from the frame's start.
#[derive(Clone, Copy, Debug, PartialEq, Eq)]
pub enum Home {
    NoHome,
    InSlot(u32),
    /// A phi's slot, after which its shadow stands.
    OfPhi(u32),
    InMemory(u32),
}

impl Home {
    /// The home of a part that begins at this offset.
    fn at(offset: u32, need: Need) -> Home
        ensures { result ≡ home_at offset need }
    {
        match need {
            Need::Slot => Home::InSlot(offset),
            Need::SlotAndShadow => Home::OfPhi(offset),
            Need::Memory(_, _) => Home::InMemory(offset),
        }
    }

    pub fn slot(self) -> Option<u32>
        ensures { result ≡ slot_in self }
    {
        match self {
            Home::InSlot(offset) | Home::OfPhi(offset) => Some(offset),
            _ => None,
        }
    }

    pub fn shadow(self) -> Option<u32>
        requires { IsLow self }
        ensures { result ≡ shadow_in self }
    {
        match self {
            Home::OfPhi(offset) => Some(offset + 4),
            _ => None,
        }
    }

    pub fn place(self) -> Option<u32>
        ensures { result ≡ place_in self }
    {
        match self {
            Home::InMemory(offset) => Some(offset),
            _ => None,
        }
    }
}

/// Where the last of some parts ends, of which the first begins after the return address.
pub fn end(parts: &[Part]) -> u64
    requires needs { All (λ p. IsNeed p.need) parts.now }
    requires room { end_of_all 4 parts.now < 2 ^ 64 }
    ensures { result ≡ end_of_all 4 parts.now }
{
    let mut end: u64 = 4;
    for part in parts {
        end = part.need.end(end);
    }
    end
}

/// The home of each of so many registers, where these parts end low enough.
pub fn homes(alloc: Global, regs: u32, parts: &[Part]) -> Result<Vec<Home>, NoMemory>
    requires parts { All (IsPart regs) parts.now }
    requires low { end_of_all 4 parts.now ≤ LARGEST_FRAME }
    ensures { IfOk result (λ homes. homes.items ≡ with_homes (replicate regs home.NoHome) 4 parts.now) }
{
    let mut homes = vec![in alloc; Home::NoHome; regs as usize]?;
    let mut end: u64 = 4;
    for part in parts {
        homes[part.reg.0 as usize] = Home::at(part.need.begin(end) as u32, part.need);
        end = part.need.end(end);
    }
    Ok(homes)
}
