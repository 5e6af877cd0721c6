ghost use Rattle.std.specs.Prelude.{◌≡◌};
ghost use Rattle.ir_verifier.specs.declared.fault.RuleFault.TheVariants.{NoMemory};
ghost use Rattle.ir_verifier.specs.Verdict.{of_assignment};

use ir_assigned::{AssignFault, Unassigned};
use oi_base::{NoMemory, Place};
use thiserror::Error;

/// Why a module isn't verified.
#[derive(Debug, Drop, Error)]
pub enum RuleFault {
    /// The number of the first broken rule, and the first place at which it is broken (docs/RULES.md).
    #[error("rule {0} is broken")]
    Rule(u8, Place),
    /// The first broken rule is that of assignment.
    #[error("rule 18 is broken")]
    Unassigned(Unassigned),
    /// Memory ran out.
    #[error("out of memory")]
    NoMemory,
}

impl From<NoMemory> for RuleFault {
    ghost from_gives = { λ _ e. e ≡ NoMemory };

    fn from(_error: NoMemory) -> RuleFault {
        RuleFault::NoMemory
    }
}

impl From<AssignFault> for RuleFault {
    ghost from_gives = { λ fault e. e ≡ of_assignment fault };

    fn from(error: AssignFault) -> RuleFault {
        match error {
            AssignFault::Unassigned(unassigned) => RuleFault::Unassigned(unassigned),
            AssignFault::NoMemory => RuleFault::NoMemory,
        }
    }
}
