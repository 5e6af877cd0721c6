ghost use Rattle.std.specs.Prelude.{◌≡◌, ◌↔◌, IfOk, IfSome, IfNone, IsTrue, Some, []};
ghost use Rattle.inline_certificate.specs.Trees.{IsTree, any_form};
ghost use Rattle.inline_certificate.specs.Places.{after, root};

use crate::forms::Form;
use crate::nodes::{CertNode, CertNodes};
use crate::places::{Places, fits};
use oi_base::NoMemory;
use std::alloc::Global;
use std::marker::Model;

/// The nodes of exactly one tree, in preorder. A split lists two functions or more and has a part for each, and a cut
/// stands as the second child of a branch alone. Contracts see the list of the nodes.
#[derive(Debug, Drop)]
pub struct CertTree {
    nodes: CertNodes,
}

impl Model for CertTree {
    ghost use Rattle.std.specs.Prelude.{List};
    ghost use Rattle.inline_certificate.specs.declared.nodes.CertNode.{CertNode};
    ghost use Rattle.inline_certificate.specs.Trees.{IsTree};

    ghost Value = { List CertNode };

    ghost view = { λ t. t.nodes };

    ghost invariant = { λ t. IsTree t.nodes };
}

impl CertTree {
    /// The tree of these nodes, or `None` where they are not those of exactly one tree in preorder.
    pub fn of(alloc: Global, nodes: CertNodes) -> Result<Option<CertTree>, NoMemory>
        ensures same { IfOk result (λ o. IfSome o (λ t. t ≡ nodes)) }
        ensures tree { IfOk result (λ o. IfSome o (λ t. IsTree t)) }
        ensures none { IfOk result (λ o. IfNone o (IsTree nodes → ⊥)) }
    {
        if !is_tree(alloc, nodes.as_slice())? {
            return Ok(None);
        }
        Ok(Some(CertTree { nodes }))
    }

    /// The tree of these nodes.
    pub(crate) fn made(nodes: CertNodes) -> CertTree
        requires { IsTree nodes }
        ensures { result ≡ nodes }
    {
        CertTree { nodes }
    }

    /// The nodes, in preorder.
    pub fn nodes(&self) -> &[CertNode]
        ensures all { result.now ≡ self.now }
        ensures tree { IsTree result.now }
    {
        self.nodes.as_slice()
    }
}

/// Whether the nodes are those of one tree.
fn is_tree(alloc: Global, nodes: &[CertNode]) -> Result<bool, NoMemory>
    ensures { IfOk result (λ is. IsTrue is ↔ (after any_form root nodes.now ≡ Some [])) }
{
    let mut places = Places::root(alloc)?;
    for node in nodes {
        let Some(place) = places.next() else {
            return Ok(false);
        };
        if !fits(Form::any(), place, node) {
            return Ok(false);
        }
        places.open(place.depth, node)?;
    }
    Ok(places.is_empty())
}
