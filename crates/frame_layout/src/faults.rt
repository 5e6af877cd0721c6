ghost use Rattle.std.specs.Prelude.{◌≡◌};
ghost use Rattle.frame_layout.specs.declared.faults.FrameFault.TheVariants as fault;

use thiserror::Error;

/// Why a body has no frame.
#[derive(Clone, Copy, Debug, PartialEq, Eq, Error)]
pub enum FrameFault {
    /// The frame would have more than `LARGEST_FRAME` bytes: it would have so many.
    #[error("frame {0}")]
    FrameTooLarge(u64),
    #[error("out of memory")]
    NoMemory,
}

impl From<oi_base::NoMemory> for FrameFault {
    ghost from_gives = { λ _ e. e ≡ fault.NoMemory };

    fn from(_error: oi_base::NoMemory) -> FrameFault {
        FrameFault::NoMemory
    }
}
