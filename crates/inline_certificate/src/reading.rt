ghost use Rattle.std.specs.Prelude.{◌≡◌, ◌≢◌, ◌<◌, ◌+◌, length, List, None, Some, IfOk, IfErr, OnOk};
ghost use Rattle.oi_base.specs.Ascending.{IsAscending};
ghost use Rattle.decisions.specs.Maps.{sites_of};
ghost use Rattle.inline_certificate.specs.declared.faults.CertFault.TheVariants as faults;
ghost use Rattle.inline_certificate.specs.declared.certificates.Certificate as certificate;
ghost use Rattle.inline_certificate.specs.Certificates.{IsCertificate, HasWords, IsSame, IsWord, AreNodes};
ghost use Rattle.inline_certificate.specs.Reading.{first_fault};
ghost use Rattle.inline_certificate.specs.Bodies.{BodyReads};

use crate::certificates::Certificate;
use crate::faults::CertFault;
use crate::heads::read_head;
use crate::map_lines::{map_end, read_map};
use crate::tree_lines::read_tree;
use oi_base::SiteId;
use std::alloc::Global;

/// The certificate over these candidates, which ascend, that a text states, as `print_certificate` writes it, but with the
/// map's lines in any order. Faults are told in the order of the lines; on one line form comes before depth, and a site is
/// missing at the line `tree`.
pub fn read_certificate(
    alloc: Global,
    bytes: &[u8],
    candidates: &[SiteId],
) -> Result<Certificate, CertFault>
    requires ascending { IsAscending candidates.now }
    requires short { length bytes.now < u32.MAX }

    ensures sites { IfOk result (λ c. sites_of c.map ≡ candidates.now) }
    ensures text { IfOk result (λ c. IsCertificate bytes.now c) }
    ensures words { IfOk result (λ c. IsWord c.text × AreNodes c.tree) }
    ensures sound { OnOk result (first_fault candidates.now bytes.now ≡ None) }
    ensures fault { IfErr result (λ e. e ≢ faults.NoMemory → first_fault candidates.now bytes.now ≡ Some e) }
    ensures complete { IfErr result (λ e. e ≢ faults.NoMemory → (c : certificate.Certificate) → HasWords c → sites_of c.map ≡ candidates.now → IsCertificate bytes.now c → ⊥) }
    ensures only { IfOk result (λ c. (other : certificate.Certificate) → HasWords other → sites_of other.map ≡ candidates.now → IsCertificate bytes.now other → IsSame c other) }
{
    let head = read_head(bytes)?;
    read_body(alloc, head.version, head.text, head.rest, candidates)
}

/// The certificate of this version and text that lines state after the first two.
fn read_body(
    alloc: Global,
    version: u8,
    text: u32,
    rest: &[u8],
    candidates: &[SiteId],
) -> Result<Certificate, CertFault>
    requires ascending { IsAscending candidates.now }
    requires short { length rest.now + 8 < u32.MAX }
    requires from_one { 0 < version }
    requires to_two { version < 3 }
    ensures { BodyReads candidates.now version text rest.now result }
{
    let end = map_end(rest);
    let (map_lines, after) = rest.split_at(end.at);
    let map = read_map(alloc, map_lines, end.lines + 3, end.ends, candidates)?;
    let tree = read_tree(alloc, version, &after[5..], end.lines + 3)?;
    Ok(Certificate {
        version,
        text,
        map,
        tree,
    })
}
