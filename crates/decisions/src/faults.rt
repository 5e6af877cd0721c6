ghost use Rattle.std.specs.Prelude.{◌≡◌};
ghost use Rattle.decisions.specs.declared.faults.DecisionFault.TheVariants.{NoMemory};

use oi_base::SiteId;
use thiserror::Error;

/// Why a text is no map over the candidates. Lines are numbered from 1.
#[derive(Clone, Copy, Debug, PartialEq, Eq, Error)]
pub enum DecisionFault {
    /// The line is not a number and a label, ended by a line feed.
    #[error("line {0} form")]
    BadLine(u32),
    /// The line's site is no candidate.
    #[error("line {0} site")]
    NotCandidate(u32, SiteId),
    /// An earlier line has the same site.
    #[error("line {0} twice")]
    Twice(u32, SiteId),
    /// No line has this candidate; it is the lowest such.
    #[error("missing site")]
    Missing(SiteId),
    /// Memory ran out.
    #[error("out of memory")]
    NoMemory,
}

impl From<oi_base::NoMemory> for DecisionFault {
    ghost from_gives = { λ _ e. e ≡ NoMemory };

    fn from(_error: oi_base::NoMemory) -> DecisionFault {
        DecisionFault::NoMemory
    }
}
