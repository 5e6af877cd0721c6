ghost use Rattle.std.specs.Prelude.{◌≡◌, ◌+◌, ◌<◌, [], ◌∷◌, ◌++◌, length, IfOk, OnOk};
ghost use Rattle.inline_certificate.specs.Trees.{form_of};
ghost use Rattle.inline_certificate.specs.Places.{below};
ghost use Rattle.inline_certificate.specs.Steps.{Takes, TreeReads};

use crate::faults::CertFault;
use crate::forms::Form;
use crate::lines::read_node;
use crate::nodes::CertNode;
use crate::places::{Places, fits};
use crate::trees::CertTree;
use crate::words::first_line;
use oi_base::{Items, NoMemory};
use std::alloc::Global;

/// The tree whose lines these are, after `before` lines.
pub fn read_tree(
    alloc: Global,
    version: u8,
    bytes: &[u8],
    before: u32,
) -> Result<CertTree, CertFault>
    requires { before + length bytes.now < u32.MAX }
    ensures { TreeReads (form_of version) (before + 1) bytes.now result }
{
    let mut places = Places::root(alloc)?;
    let mut nodes = no_nodes(alloc, bytes)?;
    let mut rest = bytes;
    let mut number = before;
    'lines: while !rest.is_empty() {
        number += 1;
        let (line, after) = first_line(rest);
        take_node(alloc, version, &mut places, &mut nodes, line, number)?;
        rest = after;
    }
    if !places.is_empty() {
        return Err(CertFault::BadLine(number + 1));
    }
    Ok(CertTree::made(Items::from_vec(nodes)))
}

/// No nodes yet, with room for as many as these lines can be of: a node's line has four bytes or more.
fn no_nodes(alloc: Global, bytes: &[u8]) -> Result<Vec<CertNode>, NoMemory>
    ensures { IfOk result (λ nodes. nodes.items ≡ []) }
{
    let lines = bytes.iter().filter(|b| **b == b'\n').count();
    Ok(Vec::with_capacity(alloc, lines.min(bytes.len() / 4))?)
}

/// Reads the line of the node that stands at the next place.
fn take_node(
    alloc: Global,
    version: u8,
    places: &mut Places,
    nodes: &mut Vec<CertNode>,
    line: &[u8],
    number: u32,
) -> Result<(), CertFault>
    ensures { Takes (form_of version) number line.now places.old places.new nodes.old.items nodes.new.items result }
{
    let form = Form::of(version);
    let Some(node) = read_node(alloc, line)? else {
        return Err(CertFault::BadLine(number));
    };
    let Some(place) = places.next() else {
        return Err(CertFault::BadLine(number));
    };
    if !fits(form, place, &node) {
        return Err(CertFault::BadLine(number));
    }
    if !form.is_within(place.depth) {
        return Err(CertFault::Depth(number));
    }
    Ok(add_node(places, nodes, place.depth, node)?)
}

/// Appends a node of this depth, and opens the places of its children.
fn add_node(
    places: &mut Places,
    nodes: &mut Vec<CertNode>,
    depth: usize,
    node: CertNode,
) -> Result<(), NoMemory>
    requires { depth < usize.MAX }
    ensures opened { OnOk result (places.new ≡ below depth node ++ places.old) }
    ensures added { OnOk result (nodes.new.items ≡ nodes.old.items ++ node ∷ []) }
{
    places.open(depth, &node)?;
    nodes.push(node)?;
    Ok(())
}
