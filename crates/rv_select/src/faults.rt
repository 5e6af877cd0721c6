ghost use Rattle.std.specs.Prelude.{◌≡◌};
ghost use Rattle.rv_select.specs.declared.faults.SelectFault.TheVariants as fault;

use thiserror::Error;

/// Which limit a body exceeds.
#[derive(Clone, Copy, Debug, PartialEq, Eq)]
pub enum Cause {
    /// Its weight, of at most 8,192.
    Weight,
    /// Its frame, of at most `LARGEST_FRAME` bytes.
    Frame,
    /// Its code, of at most `LARGEST_CODE` bytes.
    Code,
}

/// The first limit that a body exceeds, and by which number.
#[derive(Clone, Copy, Debug, PartialEq, Eq)]
pub struct NoSize {
    pub cause: Cause,
    pub number: u64,
}

/// Why a body has no code.
#[derive(Clone, Copy, Debug, PartialEq, Eq, Error)]
pub enum SelectFault {
    #[error("no size")]
    NoSize(NoSize),
    #[error("out of memory")]
    NoMemory,
}

impl From<oi_base::NoMemory> for SelectFault {
    ghost from_gives = { λ _ e. e ≡ fault.NoMemory };

    fn from(_error: oi_base::NoMemory) -> SelectFault {
        SelectFault::NoMemory
    }
}
