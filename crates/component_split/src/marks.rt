ghost use Rattle.std.specs.Prelude.{◌≡◌, ◌≤◌, length, IfOk, Some};
ghost use Rattle.component_split.specs.Split.{is_bridge};
ghost use Rattle.component_split.specs.Classes.{AreParents, AreApart};
ghost use Rattle.component_split.specs.Over.{site_graph, labels, IsSetOf, HoldsInside, IsMarksOf};

use crate::classes::{numbers, part};
use crate::sets::FuncSet;
use crate::unions::{count_roots, join_sites};
use call_graph::CallGraph;
use decisions::Partial;
use oi_base::{NoMemory, SiteId};
use std::alloc::Global;
use std::marker::Model;

/// Room for what is worked out of a set, used again for each. Contracts see for how many functions there is room.
#[derive(Drop)]
pub struct Marks {
    pub(crate) parents: Vec<usize>,
    pub(crate) degrees: Vec<usize>,
    /// Where the room for walks comes from.
    pub(crate) alloc: Global,
}

impl Model for Marks {
    ghost use Rattle.std.specs.Prelude.{◌≡◌, ℕ, length};
    ghost use Rattle.component_split.specs.Classes.{AreParents};

    ghost Value = { ℕ };

    ghost view = { λ m. length m.parents.items };

    ghost invariant = { λ m. AreParents m.parents.items × (length m.degrees.items ≡ length m.parents.items) };
}

impl Marks {
    /// Room for any set of a call graph's functions.
    pub fn new(alloc: Global, g: &CallGraph) -> Result<Marks, NoMemory>
        ensures { IfOk result (λ m. IsMarksOf g.now m) }
    {
        Ok(Marks {
            parents: numbers(alloc, g.funcs() as usize)?,
            degrees: numbers(alloc, g.funcs() as usize)?,
            alloc,
        })
    }
}

/// Whether the set without the site has several components. Where the set is connected and the site is inside it, this
/// is whether removing the site disconnects it. Its condition on the map is that it holds each candidate inside the set.
pub fn is_bridge(g: &CallGraph, p: &Partial, s: &FuncSet, site: SiteId, marks: &mut Marks) -> bool
    requires set { IsSetOf g.now s.now }
    requires map { HoldsInside g.now s.now p.now }
    requires marks { IsMarksOf g.now marks.old }
    ensures bridge { result ≡ is_bridge (site_graph g.now) (labels p.now) s.now.0 site.0 }
    ensures marks { marks.new ≡ marks.old }
{
    part(&mut marks.parents, s.funcs.len());
    join_sites(&mut marks.parents, g, p, s, Some(site));
    count_roots(&marks.parents, s.funcs.len()) > 1
}
