use crate::{DecisionFault, Label, Partial, print_decisions, read_decisions};
use oi_base::SiteId;
use std::test::Fail;

const LOW: SiteId = SiteId(1);

const HIGH: SiteId = SiteId(3);

#[test]
fn faults_of_texts(rt: HostRuntime) -> Result<(), Fail> {
    for (text, want) in [
        ("", DecisionFault::Missing(LOW)),
        ("3 inline\n", DecisionFault::Missing(LOW)),
        ("1 keep\n", DecisionFault::Missing(HIGH)),
        ("1 keep\n1 keep\n", DecisionFault::Twice(2, LOW)),
        ("3 inline\n1 keep\n3 keep\n", DecisionFault::Twice(3, HIGH)),
        ("2 keep\n", DecisionFault::NotCandidate(1, SiteId(2))),
        ("0 keep\n", DecisionFault::NotCandidate(1, SiteId(0))),
        (
            "4294967295 keep\n",
            DecisionFault::NotCandidate(1, SiteId(4_294_967_295)),
        ),
        ("4294967296 keep\n", DecisionFault::BadLine(1)),
        ("1 keep", DecisionFault::BadLine(1)),
        ("01 keep\n", DecisionFault::BadLine(1)),
        ("+1 keep\n", DecisionFault::BadLine(1)),
        ("1  keep\n", DecisionFault::BadLine(1)),
        ("1 keep \n", DecisionFault::BadLine(1)),
        ("1 keep\r\n", DecisionFault::BadLine(1)),
        ("1 Keep\n", DecisionFault::BadLine(1)),
        ("keep\n", DecisionFault::BadLine(1)),
        ("1 inline\n\n", DecisionFault::BadLine(2)),
    ] {
        if text.len() < 100 {
            match read_decisions(rt.alloc(), text.as_bytes(), &[LOW, HIGH]) {
                Ok(_) => return Err("a fault was read".into()),
                Err(fault) => assert_eq!(rt; fault, want, "of {text}"),
            }
        }
    }
    Ok(())
}

#[test]
fn a_map_and_its_text(rt: HostRuntime) -> Result<(), Fail> {
    let mut partial = Partial::start(rt.alloc(), &[LOW, HIGH])?;
    assert_eq!(rt; partial.get(HIGH), None);
    partial.set(HIGH, Label::Inline);
    let mut copy = partial.copy(rt.alloc())?;
    copy.set(LOW, Label::Keep);
    let map = copy.whole(rt.alloc())?;
    assert_eq!(rt; map.label(HIGH), Some(Label::Inline));
    assert_eq!(rt; map.label(SiteId(2)), None);
    assert_eq!(rt; map.sites(), [LOW, HIGH].as_slice());
    let text = print_decisions(rt.alloc(), &map)?;
    assert_eq!(rt; text.as_slice(), b"1 keep\n3 inline\n".as_slice());
    let read = read_decisions(rt.alloc(), b"3 inline\n1 keep\n", &[LOW, HIGH])?;
    assert!(rt; read.same(&map));
    Ok(())
}
