ghost use Rattle.std.specs.Prelude.{All};

use crate::bodies::{chain, past_puts, returns};
use crate::checking::is_plain;
use ir_core::FlatBody;
use oi_base::NoMemory;
use rv_isa::encode;
use rv_select::{Code, Item, SelectFault, select};
use std::alloc::Global;
use std::test::Fail;

/// The code of a plain body.
#[tactic(auto, using(crate::proofs::WellFormed::plain_is_well_formed))]
fn selected(alloc: Global, body: &FlatBody) -> Option<Result<Code, SelectFault>> {
    if is_plain(body) {
        Some(select(alloc, body))
    } else {
        None
    }
}

/// The words of the instructions of a code.
fn words(alloc: Global, code: &Code) -> Result<Vec<u32>, NoMemory> {
    let mut words = Vec::new(alloc);
    for item in code.as_slice() {
        if let Item::Word(i) = item {
            words.push(encode(*i))?;
        }
    }
    Ok(words)
}

/// The words of the code of a body.
fn words_of(alloc: Global, body: &FlatBody) -> Result<Vec<u32>, NoMemory> {
    match selected(alloc, body) {
        Some(Ok(code)) => words(alloc, &code),
        _ => Ok(Vec::new(alloc)),
    }
}

// Expected values are those of a plain model.

#[test]
fn a_byte_is_returned(rt: HostRuntime) -> Result<(), Fail> {
    let body = returns(rt.alloc(), 7)?;
    let words = words_of(rt.alloc(), &body)?;
    let expected = [
        0xff01_0113,
        0x0011_2023,
        0x0070_0513,
        0x0001_2083,
        0x0101_0113,
        0x0000_8067,
    ];
    assert_eq!(rt; words.as_slice(), expected.as_slice());
    Ok(())
}

#[test]
fn branches_past_puts(rt: HostRuntime) -> Result<(), Fail> {
    for (puts, bytes, branch, next) in [
        (4, 84, 0x0202_9c63, 0x0410_0513),
        (340, 4_116, 0x7e02_9ce3, 0x0410_0513),
        (341, 4_132, 0x0002_8463, 0x0040_106f),
        (400, 4_840, 0x0002_8463, 0x2c80_106f),
    ] {
        let body = past_puts(rt.alloc(), puts)?;
        let words = words_of(rt.alloc(), &body)?;
        assert_eq!(rt; words.len(), bytes / 4, "of {puts}");
        assert_eq!(rt; words.get(3).copied(), Some(branch), "of {puts}");
        assert_eq!(rt; words.get(4).copied(), Some(next), "of {puts}");
    }
    Ok(())
}

// One branch grows a round, from the last block to the first.
#[test]
fn a_chain_of_branches(rt: HostRuntime) -> Result<(), Fail> {
    for (count, bytes) in [(600, 11_308), (8_192, 102_412)] {
        let body = chain(rt.alloc(), count, 342)?;
        let words = words_of(rt.alloc(), &body)?;
        assert_eq!(rt; words.len(), bytes / 4, "of {count}");
    }
    Ok(())
}
