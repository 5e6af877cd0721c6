ghost use Rattle.std.specs.Prelude.{◌≡◌, ◌<◌, [], ◌∷◌, ◌++◌, ◌↔◌, IfOk, OnOk, IsTrue, true, MatchOption, replicate};
ghost use Rattle.inline_certificate.specs.Places.{root, below, fits};

use crate::forms::Form;
use crate::nodes::CertNode;
use oi_base::NoMemory;
use std::alloc::Global;
use std::marker::Model;

/// A place of a tree at which a node is still to come: its depth, the root having depth 1, and whether it is that of the
/// second child of a branch.
#[derive(Clone, Copy, Debug)]
pub struct Place {
    pub depth: usize,
    pub second: bool,
}

/// Equal places, one after the other.
#[derive(Clone, Copy, Debug)]
pub struct Run {
    pub place: Place,
    pub count: usize,
}

/// The open places of a tree whose nodes come in preorder. Contracts see the list of them, the next one first. A split of
/// many parts takes no more room than one of two.
#[derive(Drop)]
pub struct Places {
    runs: Vec<Run>,
}

impl Model for Places {
    ghost use Rattle.std.specs.Prelude.{List};
    ghost use Rattle.inline_certificate.specs.declared.places.Place.{Place};
    ghost use Rattle.inline_certificate.specs.Places.{places_of, AreOpen};

    ghost Value = { List Place };

    ghost view = { λ p. places_of p.runs.items };

    ghost invariant = { λ p. AreOpen p.runs.items };
}

impl Places {
    /// The place of a root alone.
    pub fn root(alloc: Global) -> Result<Places, NoMemory>
        ensures { IfOk result (λ p. p ≡ root) }
    {
        let mut runs = Vec::new(alloc);
        runs.push(Run {
            place: Place {
                depth: 1,
                second: false,
            },
            count: 1,
        })?;
        Ok(Places { runs })
    }

    /// Takes the next place.
    pub fn next(&mut self) -> Option<Place>
        ensures { MatchOption result ((self.old ≡ []) × (self.new ≡ [])) (λ p. self.old ≡ p ∷ self.new) }
    {
        let at = self.runs.len();
        if at == 0 {
            return None;
        }
        let Run { place, count } = self.runs[at - 1];
        if count == 1 {
            self.runs.truncate(at - 1);
        } else {
            self.runs[at - 1] = Run {
                place,
                count: count - 1,
            };
        }
        Some(place)
    }

    pub fn is_empty(&self) -> bool
        ensures { IsTrue result ↔ (self.now ≡ []) }
    {
        self.runs.is_empty()
    }

    /// Opens equal places before the others.
    fn open_run(&mut self, place: Place, count: usize) -> Result<(), NoMemory>
        requires { 0 < count }
        ensures { OnOk result (self.new ≡ replicate count place ++ self.old) }
    {
        self.runs.push(Run { place, count })?;
        Ok(())
    }

    /// Opens the places of a node's children, where the node has this depth.
    pub fn open(&mut self, depth: usize, node: &CertNode) -> Result<(), NoMemory>
        requires { depth < usize.MAX }
        ensures { OnOk result (self.new ≡ below depth node.now ++ self.old) }
    {
        let first = Place {
            depth: depth + 1,
            second: false,
        };
        match node {
            CertNode::Leaf(_) | CertNode::Cut(_) => Ok(()),
            CertNode::Branch(_) => self.open_branch(first),
            CertNode::Split(funcs) => self.open_parts(first, funcs.get().len()),
        }
    }

    fn open_branch(&mut self, first: Place) -> Result<(), NoMemory>
        ensures { OnOk result (self.new ≡ first ∷ record first { second = true } ∷ self.old) }
    {
        let second = Place {
            depth: first.depth,
            second: true,
        };
        self.open_run(second, 1)?;
        self.open_run(first, 1)
    }

    fn open_parts(&mut self, first: Place, count: usize) -> Result<(), NoMemory>
        ensures { OnOk result (self.new ≡ replicate count first ++ self.old) }
    {
        if count == 0 {
            return Ok(());
        }
        self.open_run(first, count)
    }
}

/// Whether a node may stand at a place, but for its depth.
pub fn fits(form: Form, place: Place, node: &CertNode) -> bool
    ensures { result ≡ fits form place node.now }
{
    match node {
        CertNode::Leaf(_) | CertNode::Branch(_) => true,
        CertNode::Split(funcs) => funcs.get().len() >= 2,
        CertNode::Cut(_) => place.second && form.has_cuts,
    }
}
