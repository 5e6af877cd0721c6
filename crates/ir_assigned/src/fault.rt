ghost use Rattle.std.specs.Prelude.{◌≡◌};
ghost use Rattle.ir_assigned.specs.declared.fault.AssignFault.TheVariants.{NoMemory};

use ir_core::LocalId;
use oi_base::{Items, NoMemory, Place};
use thiserror::Error;

/// Positions of blocks in a function's text, from 0. Contracts see it as the list.
pub type BlockPath = Items<usize>;

/// The first place at which a register is used that isn't assigned on some path from the entry, one such register, and
/// such a path: positions of blocks, the entry's first, that of the use last.
#[derive(Debug, Drop)]
pub struct Unassigned {
    pub place: Place,
    pub local: LocalId,
    pub path: BlockPath,
}

/// Why a function isn't known to assign each register before its use.
#[derive(Debug, Drop, Error)]
pub enum AssignFault {
    /// A path leads to a use around the definition.
    #[error("a register is used before its definition")]
    Unassigned(Unassigned),
    /// Memory ran out.
    #[error("out of memory")]
    NoMemory,
}

impl From<NoMemory> for AssignFault {
    ghost from_gives = { λ _ e. e ≡ NoMemory };

    fn from(_error: NoMemory) -> AssignFault {
        AssignFault::NoMemory
    }
}
