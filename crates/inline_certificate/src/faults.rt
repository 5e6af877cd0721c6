ghost use Rattle.std.specs.Prelude.{◌≡◌};
ghost use Rattle.inline_certificate.specs.declared.faults.CertFault.TheVariants.{NoMemory};

use decisions::DecisionFault;
use thiserror::Error;

/// Why a text is no certificate over the candidates. Lines are numbered from 1.
#[derive(Clone, Copy, Debug, PartialEq, Eq, Error)]
pub enum CertFault {
    /// The line has not the form that it should have there; that of a map's line too. Where the text ends too early, it is
    /// the line after the last.
    #[error("line {0} form")]
    BadLine(u32),
    /// The line's node is too deep: deeper than 4,096 in version 1, than 16,384 in version 2.
    #[error("line {0} depth")]
    Depth(u32),
    /// The map's lines: a site that is no candidate, that comes twice, or that is missing.
    #[error("{0}")]
    Map(DecisionFault),
    /// Memory ran out.
    #[error("out of memory")]
    NoMemory,
}

impl From<oi_base::NoMemory> for CertFault {
    ghost from_gives = { λ _ e. e ≡ NoMemory };

    fn from(_error: oi_base::NoMemory) -> CertFault {
        CertFault::NoMemory
    }
}
