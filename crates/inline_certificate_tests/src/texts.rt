use inline_certificate::{CertFault, read_certificate};
use oi_base::{NoMemory, SiteId};
use std::alloc::Global;

/// The lines before the tree's, over the one candidate 1.
pub const FIRST: &[u8] = b"certificate 1\ntext 40\n1 inline\ntree\n";

pub const SECOND: &[u8] = b"certificate 2\ntext 40\n1 inline\ntree\n";

/// The fault of a text over the one candidate 1, or nothing where it is a certificate.
pub fn fault_of(alloc: Global, text: &[u8]) -> Option<CertFault> {
    if text.len() > 10_000_000 {
        return Some(CertFault::NoMemory);
    }
    match read_certificate(alloc, text, &[SiteId(1)]) {
        Ok(_) => None,
        Err(fault) => Some(fault),
    }
}

/// The fault of a text that begins with these lines.
pub fn fault_after(
    alloc: Global,
    head: &[u8],
    nodes: &[u8],
) -> Result<Option<CertFault>, NoMemory> {
    let mut text = Vec::from_slice(alloc, head)?;
    text.extend_from_slice(nodes)?;
    Ok(fault_of(alloc, text.as_slice()))
}
