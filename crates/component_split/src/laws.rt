ghost use Rattle.std.specs.Prelude.{◌≡◌, ◌↔◌, ℕ, List};
ghost use Rattle.component_split.specs.Graph.{SiteGraph, Labels, Distinct, Closed};
ghost use Rattle.component_split.specs.Split.{lowest, component, Joined};
ghost use Rattle.component_split.specs.Tree.{Tree, IsTree};

/// Two functions are in one component exactly where a chain of sites joins them, none of which is kept. It does nothing:
/// its contract is the law.
pub fn components_are_joined_by_chains()
    ensures { (g : SiteGraph) (p : Labels) (fs : List ℕ) (a b : ℕ) → (lowest g p fs a ≡ lowest g p fs b) ↔ Joined g p fs a b }
{}

/// The components of a closed set are closed. It does nothing: its contract is the law.
pub fn components_of_a_closed_set_are_closed()
    ensures { (g : SiteGraph) (p : Labels) (fs : List ℕ) (r : ℕ) → Closed g p fs → Closed g p (component g p fs r) }
{}

/// A state has one tree. It does nothing: its contract is the law.
pub fn a_state_has_one_tree()
    ensures some { (g : SiteGraph) (p : Labels) (fs : List ℕ) → Distinct fs → (t : Tree) × IsTree g p fs t }
    ensures one { (g : SiteGraph) (p : Labels) (fs : List ℕ) (t u : Tree) → IsTree g p fs t → IsTree g p fs u → t ≡ u }
{}
