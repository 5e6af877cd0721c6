ghost use Rattle.std.specs.Prelude.{◌≡◌, ◌≢◌, ℕ, List, true, Some, Ok};
ghost use Rattle.ir_core.specs.declared.module.Module as modules;
ghost use Rattle.call_graph.specs.Graph as graphs;
ghost use Rattle.decisions.specs.declared.maps.Label.TheVariants.{Keep};
ghost use Rattle.component_split.specs.Graph.{Labels, Closed, has};
ghost use Rattle.component_split.specs.Over.{site_graph};
ghost use Rattle.component_split.specs.States.{none_decided};
ghost use Rattle.shapes.specs.Over.{IsGraphOf};
ghost use Rattle.inline_certificate.specs.declared.certificates.Certificate as certificates;
ghost use Rattle.inline_certificate.specs.declared.forms.Form as forms;
ghost use Rattle.inline_certificate.specs.Trees as trees;
ghost use Rattle.inline_certificate.specs.Trees.{preorder, IsIn};
ghost use Rattle.size_measure.specs.Maps.{Map, Completes, map_of};
ghost use Rattle.size_measure.specs.Sizes.{Size, IsAtMost, size};
ghost use Rattle.size_measure.specs.Low.{IsBound};
ghost use Rattle.cert_checker.specs.Worth.{BoundOf, Worth, Passes};
ghost use Rattle.cert_checker.specs.Judged.{judged_certificate};

/// What a tree is worth over a closed state, no completion goes below, whatever the bounds of its cuts are, as long as they bound
/// all completions of theirs. It does nothing: its contract is the law.
pub fn a_worth_is_a_bound()
    ensures { (m : modules.Module) (g : graphs.Graph) (bound : BoundOf) → ((p : Labels) (fs : List ℕ) → Closed (site_graph g) p fs → IsBound m g p fs (bound p fs)) → (t : trees.Tree) (p : Labels) (fs : List ℕ) (x : Size) → Closed (site_graph g) p fs → Worth m g bound p fs t x → IsBound m g p fs x }
{}

/// Where a certificate passes, its map has the stated size, and no map over the candidates has less, whoever made the
/// certificate. It does nothing: its contract is the law.
pub fn a_passing_certificate_states_a_least_map()
    ensures size { (m : modules.Module) (g : graphs.Graph) (c : certificates.Certificate) → Passes m g c → size m g (map_of c.map) ≡ Some c.text }
    ensures least { (m : modules.Module) (g : graphs.Graph) → IsGraphOf m g → (c : certificates.Certificate) → Passes m g c → (d : Map) → Completes d (none_decided g) → IsAtMost (Some c.text) (size m g d) }
{}

/// A certificate, whose tree is in some form, passes exactly where nothing of it is broken, and what it then proves least is the
/// stated size. It does nothing: its contract is the law.
pub fn a_certificate_passes_where_nothing_is_broken()
    ensures passes { (m : modules.Module) (g : graphs.Graph) (c : certificates.Certificate) (f : forms.Form) (t : trees.Tree) → IsIn f 1 t → c.tree ≡ preorder t → (n : ℕ) → judged_certificate m g c t ≡ Ok n → (n ≡ c.text) × Passes m g c }
    ensures unbroken { (m : modules.Module) (g : graphs.Graph) (c : certificates.Certificate) (p : Passes m g c) → judged_certificate m g c p.tree ≡ Ok c.text }
{}
