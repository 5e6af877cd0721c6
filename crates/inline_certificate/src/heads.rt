ghost use Rattle.inline_certificate.specs.Bodies.{HeadReads};

use crate::faults::CertFault;
use crate::lines::{stated_text, version_of};
use crate::words::first_line;

/// What the first two lines of a certificate state, and what follows them.
#[derive(Clone, Copy)]
pub struct Head<'a> {
    pub version: u8,
    pub text: u32,
    pub rest: &'a [u8],
}

/// Reads the lines of the version and the text.
pub fn read_head(bytes: &[u8]) -> Result<Head<'_>, CertFault>
    ensures { HeadReads bytes.now result }
{
    if bytes.is_empty() {
        return Err(CertFault::BadLine(1));
    }
    let (first, after) = first_line(bytes);
    let Some(version) = version_of(first) else {
        return Err(CertFault::BadLine(1));
    };
    if after.is_empty() {
        return Err(CertFault::BadLine(2));
    }
    let (second, rest) = first_line(after);
    let Some(text) = stated_text(second) else {
        return Err(CertFault::BadLine(2));
    };
    Ok(Head {
        version,
        text,
        rest,
    })
}
