ghost use Rattle.std.specs.Prelude.{◌<◌};

use crate::trees::CertTree;
use decisions::Decisions;

/// A certificate: a map of the candidates, the bytes of text that it gives, and a tree which shows that no map gives less.
/// Version 1 has trees without cuts, of depths up to 4,096; version 2 has cuts, and depths up to 16,384.
#[derive(Debug, Drop)]
pub struct Certificate {
    /// 1 or 2.
    pub version: u8,
    /// In bytes.
    pub text: u32,
    pub map: Decisions,
    pub tree: CertTree,
    pub ghost from_one: { 0 < version },
    pub ghost to_two: { version < 3 },
}
