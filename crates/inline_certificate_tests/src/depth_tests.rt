use crate::texts::{FIRST, SECOND, fault_of};
use inline_certificate::CertFault;
use oi_base::NoMemory;
use std::alloc::Global;
use std::test::Fail;

// Lines, then so many lines `B 1`, then so many lines `L 1`, then more.
fn text_of(
    alloc: Global,
    head: &[u8],
    branches: u32,
    leaves: u32,
    more: &[u8],
) -> Result<Vec<u8>, NoMemory> {
    let mut text = Vec::from_slice(alloc, head)?;
    for _ in 0..branches {
        text.extend_from_slice(b"B 1\n")?;
    }
    for _ in 0..leaves {
        text.extend_from_slice(b"L 1\n")?;
    }
    text.extend_from_slice(more)?;
    Ok(text)
}

#[test]
fn depths_of_version_1(rt: HostRuntime) -> Result<(), Fail> {
    for (branches, leaves, more, want) in [
        (4_095, 4_096, "", None),
        (4_096, 4_097, "", Some(CertFault::Depth(4_101))),
        (4_097, 0, "", Some(CertFault::Depth(4_101))),
        (4_096, 0, "X\n", Some(CertFault::BadLine(4_101))),
        (4_096, 0, "C 1\n", Some(CertFault::BadLine(4_101))),
        (4_096, 0, "", Some(CertFault::BadLine(4_101))),
        (4_095, 4_096, "L 1\n", Some(CertFault::BadLine(8_196))),
    ] {
        let text = text_of(rt.alloc(), FIRST, branches, leaves, more.as_bytes())?;
        assert_eq!(rt;
            fault_of(rt.alloc(), text.as_slice()),
            want,
            "of {branches} and {leaves}"
        );
    }
    Ok(())
}

#[test]
fn depths_of_version_2(rt: HostRuntime) -> Result<(), Fail> {
    for (branches, leaves, more, want) in [
        (16_383, 16_384, "", None),
        (16_384, 16_385, "", Some(CertFault::Depth(16_389))),
        (16_384, 0, "C 1\n", Some(CertFault::BadLine(16_389))),
        (16_384, 0, "", Some(CertFault::BadLine(16_389))),
    ] {
        let text = text_of(rt.alloc(), SECOND, branches, leaves, more.as_bytes())?;
        assert_eq!(rt;
            fault_of(rt.alloc(), text.as_slice()),
            want,
            "of {branches} and {leaves}"
        );
    }
    Ok(())
}
