use inline_certificate::{CertNode, CertNodes, CertTree};
use oi_base::{Boxed, FuncId, Items, NoMemory, SiteId};
use std::alloc::Global;
use std::test::Fail;

// A node of a word: `l`, `b` and `c` for a leaf, a branch and a cut, a digit for a split of so many functions.
fn node(alloc: Global, word: u8) -> Result<CertNode, NoMemory> {
    match word {
        b'b' => Ok(CertNode::Branch(SiteId(1))),
        b'c' => Ok(CertNode::Cut(None)),
        b'1' => Ok(CertNode::Split(Boxed::new(alloc, Items::from_slice(alloc, &[FuncId(0)])?)?)),
        b'2' => Ok(CertNode::Split(Boxed::new(
            alloc,
            Items::from_slice(alloc, &[FuncId(0), FuncId(1)])?,
        )?)),
        _ => Ok(CertNode::Leaf(Some(8))),
    }
}

fn is_tree(alloc: Global, words: &[u8]) -> Result<bool, NoMemory> {
    let mut nodes = CertNodes::new(alloc);
    for word in words {
        nodes.push(node(alloc, *word)?)?;
    }
    match CertTree::of(alloc, nodes)? {
        Some(tree) => Ok(tree.nodes().len() == words.len()),
        None => Ok(false),
    }
}

#[test]
fn nodes_of_exactly_one_tree(rt: HostRuntime) -> Result<(), Fail> {
    for (words, want) in [
        ("l", true),
        ("bll", true),
        ("blc", true),
        ("2lblc", true),
        ("bbllc", true),
        ("", false),
        ("ll", false),
        ("bl", false),
        ("blll", false),
        ("c", false),
        ("bcl", false),
        ("2lc", false),
        ("1l", false),
    ] {
        assert_eq!(rt; is_tree(rt.alloc(), words.as_bytes())?, want, "of {words}");
    }
    Ok(())
}
