ghost use Rattle.std.specs.Prelude.{◌≡◌, ◌+◌, ◌<◌, length, Some};
ghost use Rattle.oi_base.specs.Ascending.{IsAscending};
ghost use Rattle.inline_certificate.specs.Reading.{map_fault};
ghost use Rattle.inline_certificate.specs.Bodies.{EndsMap, HasRoom, MapReads};

use crate::faults::CertFault;
use crate::lines::is_tree_line;
use crate::words::first_line;
use decisions::{DecisionFault, Decisions, read_decisions};
use oi_base::SiteId;
use std::alloc::Global;

/// Where a map's lines end: after so many bytes and lines, and whether the text ends there too or has the line `tree`.
#[derive(Clone, Copy)]
pub struct MapEnd {
    pub at: usize,
    pub lines: u32,
    pub ends: bool,
}

/// Where the map's lines end that a text begins with.
pub fn map_end(bytes: &[u8]) -> MapEnd
    requires { length bytes.now < u32.MAX }
    ensures { EndsMap bytes.now result.at result.lines result.ends }
{
    let mut at = 0usize;
    let mut lines = 0u32;
    let mut rest = bytes;
    'lines: while !rest.is_empty() {
        let (line, after) = first_line(rest);
        if is_tree_line(line) {
            return MapEnd {
                at,
                lines,
                ends: false,
            };
        }
        at += line.len();
        lines += 1;
        rest = after;
    }
    MapEnd {
        at,
        lines,
        ends: true,
    }
}

/// The map that these lines state, before line `n`, where the text may end.
pub fn read_map(
    alloc: Global,
    map_lines: &[u8],
    n: u32,
    ends: bool,
    candidates: &[SiteId],
) -> Result<Decisions, CertFault>
    requires ascending { IsAscending candidates.now }
    requires short { length map_lines.now + 8 < u32.MAX }
    ensures { MapReads candidates.now map_lines.now n ends result }
{
    match read_decisions(alloc, map_lines, candidates) {
        Err(fault) => Err(fault_of_map(fault, n, ends)),
        Ok(map) => {
            if ends {
                return Err(CertFault::BadLine(n));
            }
            Ok(map)
        }
    }
}

/// A fault of the map as one of the certificate, in which its lines begin at line 3.
fn fault_of_map(fault: DecisionFault, n: u32, ends: bool) -> CertFault
    requires { HasRoom fault }
    ensures { map_fault n ends (Some fault) ≡ Some result }
{
    match fault {
        DecisionFault::BadLine(k) => CertFault::BadLine(k + 2),
        DecisionFault::NotCandidate(k, s) => CertFault::Map(DecisionFault::NotCandidate(k + 2, s)),
        DecisionFault::Twice(k, s) => CertFault::Map(DecisionFault::Twice(k + 2, s)),
        DecisionFault::Missing(_) if ends => CertFault::BadLine(n),
        DecisionFault::Missing(s) => CertFault::Map(DecisionFault::Missing(s)),
        DecisionFault::NoMemory => CertFault::NoMemory,
    }
}
