use crate::texts::{FIRST, SECOND, fault_after, fault_of};
use decisions::DecisionFault;
use inline_certificate::{CertFault, print_certificate, read_certificate};
use oi_base::SiteId;
use std::test::Fail;

#[test]
fn faults_before_the_tree(rt: HostRuntime) -> Result<(), Fail> {
    for (text, line) in [
        ("", 1),
        ("certificate 1", 1),
        ("certificate 3\n", 1),
        ("certificate 01\n", 1),
        ("certificate 1 \n", 1),
        ("certificate 1\r\n", 1),
        ("certificate 1\n", 2),
        ("certificate 1\ntext 40", 2),
        ("certificate 1\ntext 040\n", 2),
        ("certificate 1\ntext +40\n", 2),
        ("certificate 1\ntext none\n", 2),
        ("certificate 1\ntext 4294967296\n", 2),
        ("certificate 1\ntext 4294967295\n", 3),
        ("certificate 1\ntext 40\ntree", 3),
        ("certificate 1\ntext 40\n01 inline\ntree\nL 24\n", 3),
        ("certificate 1\ntext 40\n1 inline", 3),
        ("certificate 1\ntext 40\n1 inline\n", 4),
        ("certificate 1\ntext 40\n1 inline\ntree \nL 24\n", 4),
    ] {
        assert_eq!(rt;
            fault_of(rt.alloc(), text.as_bytes()),
            Some(CertFault::BadLine(line)),
            "of {text}"
        );
    }
    Ok(())
}

#[test]
fn faults_of_the_map(rt: HostRuntime) -> Result<(), Fail> {
    for (text, fault) in [
        (
            "certificate 1\ntext 40\ntree\nX\n",
            DecisionFault::Missing(SiteId(1)),
        ),
        (
            "certificate 2\ntext 40\n1 keep\n2 keep\n",
            DecisionFault::NotCandidate(4, SiteId(2)),
        ),
        (
            "certificate 2\ntext 40\n1 inline\n1 keep\ntree\nL 24\n",
            DecisionFault::Twice(4, SiteId(1)),
        ),
    ] {
        assert_eq!(rt;
            fault_of(rt.alloc(), text.as_bytes()),
            Some(CertFault::Map(fault)),
            "of {text}"
        );
    }
    Ok(())
}

#[test]
fn faults_of_the_tree(rt: HostRuntime) -> Result<(), Fail> {
    for (nodes, line) in [
        ("", 5),
        ("L 24", 5),
        ("L 024\n", 5),
        ("L  24\n", 5),
        ("L 24 \n", 5),
        ("L 4294967296\n", 5),
        ("B none\nL 84\nL 24\n", 5),
        ("S 0\nL 84\n", 5),
        ("S 0 01\nL 84\nL 24\n", 5),
        ("S 0 1 \nL 84\nL 24\n", 5),
        ("L 24\nL 24\n", 6),
        ("L 24\n\n", 6),
        ("B 1\nL 84\n", 7),
        ("B 1\nL 84\nL 20", 7),
        ("B 1\nL 84\nC 24\n", 7),
        ("S 0 1\nL 84\n", 7),
        ("B 1\nL 84\nL 24\nL 24\n", 8),
    ] {
        assert_eq!(rt;
            fault_after(rt.alloc(), FIRST, nodes.as_bytes())?,
            Some(CertFault::BadLine(line)),
            "of {nodes}"
        );
    }
    Ok(())
}

#[test]
fn cuts_in_wrong_places(rt: HostRuntime) -> Result<(), Fail> {
    for (nodes, line) in [
        ("C 24\n", 5),
        ("B 1\nC 84\nC 24\n", 6),
        ("S 0 1\nL 1\nC 24\n", 7),
        ("B 1\nL 84\nC 024\n", 7),
        ("B 1\nL 84\nC 24\nC 24\n", 8),
    ] {
        assert_eq!(rt;
            fault_after(rt.alloc(), SECOND, nodes.as_bytes())?,
            Some(CertFault::BadLine(line)),
            "of {nodes}"
        );
    }
    Ok(())
}

#[test]
fn trees_in_form(rt: HostRuntime) -> Result<(), Fail> {
    for nodes in [
        "L none\n",
        "L 4294967295\n",
        "B 9\nL 84\nL 24\n",
        "S 4294967295 0\nL 1\nL 1\n",
        "S 0 1 2\nL 1\nB 1\nL 2\nL 3\nL 4\n",
        "B 1\nL 84\nC 24\n",
        "B 1\nL 84\nC none\n",
        "B 1\nS 0 1\nL 1\nL 2\nC 3\n",
        "B 1\nB 1\nL 1\nC 2\nC 3\n",
    ] {
        assert_eq!(rt;
            fault_after(rt.alloc(), SECOND, nodes.as_bytes())?,
            None,
            "of {nodes}"
        );
    }
    Ok(())
}

#[test]
fn a_certificate_and_its_text(rt: HostRuntime) -> Result<(), Fail> {
    let text = b"certificate 1\ntext 40\n1 inline\ntree\nB 1\nL 84\nL 24\n";
    let read = read_certificate(rt.alloc(), text, &[SiteId(1)])?;
    assert_eq!(rt; read.version, 1);
    assert_eq!(rt; read.text, 40);
    assert_eq!(rt; read.map.sites(), [SiteId(1)].as_slice());
    assert_eq!(rt; read.tree.nodes().len(), 3);
    let printed = print_certificate(rt.alloc(), &read)?;
    assert_eq!(rt; printed.as_slice(), text.as_slice());
    Ok(())
}

#[test]
fn the_order_of_the_maps_lines(rt: HostRuntime) -> Result<(), Fail> {
    let text = b"certificate 2\ntext 7\n3 keep\n1 inline\ntree\nS 0 2\nL none\nB 3\nL 5\nC none\n";
    let read = read_certificate(rt.alloc(), text, &[SiteId(1), SiteId(3)])?;
    let printed = print_certificate(rt.alloc(), &read)?;
    assert_eq!(rt;
        printed.as_slice(),
        b"certificate 2\ntext 7\n1 inline\n3 keep\ntree\nS 0 2\nL none\nB 3\nL 5\nC none\n".as_slice()
    );
    Ok(())
}
