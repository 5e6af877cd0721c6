ghost use Rattle.std.specs.Prelude.{◌≡◌, ◌≢◌, ◌<◌, ℕ, List, length, true, Some};
ghost use Rattle.oi_base.specs.declared.ids.FuncId as func_ids;
ghost use Rattle.oi_base.specs.declared.ids.SiteId as site_ids;
ghost use Rattle.ir_core.specs.declared.module.Module as modules;
ghost use Rattle.call_graph.specs.Graph as graphs;
ghost use Rattle.call_graph.specs.Graph.{candidate_ids};
ghost use Rattle.decisions.specs.declared.maps.Label.{Label};
ghost use Rattle.decisions.specs.Maps.{sites_of};
ghost use Rattle.shapes.specs.Tree as trees;
ghost use Rattle.shapes.specs.Over.{IsGraphOf};
ghost use Rattle.shapes.specs.Standing as standing;
ghost use Rattle.function_removal.specs.Kept.{IsReached, IsKept};
ghost use Rattle.decisions.specs.declared.maps.Label.TheVariants.{Keep};
ghost use Rattle.component_split.specs.Graph.{Labels, Closed, has};
ghost use Rattle.component_split.specs.Over.{site_graph, labels};
ghost use Rattle.component_split.specs.Split.{component, roots};
ghost use Rattle.size_measure.specs.Maps.{Map, Completes, AgreeInside, filled, map_of};
ghost use Rattle.size_measure.specs.Kept.{is_kept};
ghost use Rattle.size_measure.specs.Trees.{tree, body, reaches};
ghost use Rattle.size_measure.specs.Sizes.{Size, total, body_size, part};
ghost use Rattle.size_measure.specs.Low.{is_settled, low, IsBound, IsLeastOf};

/// In a closed set nothing depends on the labels of sites outside: where two completions of a partial map agree at the sites
/// inside, each function of the set has one expanded body, one size and is kept in both or in neither, and the functions that
/// are kept have one size together. It does nothing: its contract is the law.
pub fn parts_are_independent()
    ensures bodies { (m : modules.Module) (g : graphs.Graph) (p : Labels) (fs : List ℕ) → Closed (site_graph g) p fs → (d e : Map) → Completes d p → Completes e p → AgreeInside (site_graph g) fs d e → (f : ℕ) → has fs f ≡ true → body m g d f ≡ body m g e f }
    ensures sizes { (m : modules.Module) (g : graphs.Graph) (p : Labels) (fs : List ℕ) → Closed (site_graph g) p fs → (d e : Map) → Completes d p → Completes e p → AgreeInside (site_graph g) fs d e → (f : ℕ) → has fs f ≡ true → body_size m g d f ≡ body_size m g e f }
    ensures kept { (m : modules.Module) (g : graphs.Graph) (p : Labels) (fs : List ℕ) → Closed (site_graph g) p fs → (d e : Map) → Completes d p → Completes e p → AgreeInside (site_graph g) fs d e → (f : ℕ) → has fs f ≡ true → is_kept g d f ≡ is_kept g e f }
    ensures parts { (m : modules.Module) (g : graphs.Graph) (p : Labels) (fs : List ℕ) → Closed (site_graph g) p fs → (d e : Map) → Completes d p → Completes e p → AgreeInside (site_graph g) fs d e → part m g d fs ≡ part m g e fs }
{}

/// The size of a settled function is the same under all completions of a partial map over the candidates, as is its expanded
/// body. It does nothing: its contract is the law.
pub fn settled_sizes_are_the_same()
    ensures { (m : modules.Module) (g : graphs.Graph) (p : Labels) → ((s : ℕ) → p s ≢ Some Keep → has (site_graph g).sites s ≡ true) → (d e : Map) → Completes d p → Completes e p → (f : ℕ) → is_settled g p f ≡ true → (body m g d f ≡ body m g e f) × (body_size m g d f ≡ body_size m g e f) }
{}

/// No completion of a partial map over the candidates has less over a set of functions than the lower bound, and none has a size
/// where that is none. It does nothing: its contract is the law.
pub fn low_bounds_all_completions()
    ensures { (m : modules.Module) (g : graphs.Graph) (p : Labels) → ((s : ℕ) → p s ≢ Some Keep → has (site_graph g).sites s ≡ true) → (fs : List ℕ) → IsBound m g p fs (low m g p fs) }
{}

/// The least size over a closed set among the completions of a partial map is the sum of the least sizes over its components,
/// and there is none where one of these has none. It does nothing: its contract is the law.
pub fn the_least_is_the_sum_over_components()
    ensures { (m : modules.Module) (g : graphs.Graph) (p : Labels) (fs : List ℕ) → Closed (site_graph g) p fs → (x : ℕ → Size) → ((r : ℕ) → has (roots (site_graph g) p fs) r ≡ true → IsLeastOf m g p (component (site_graph g) p fs r) (x r)) → IsLeastOf m g p fs (total x (roots (site_graph g) p fs)) }
{}

/// The tree of a function that stands for a partial map over the candidates is that of the map in which undecided sites are
/// kept. It does nothing: its contract is the law.
pub fn trees_of_forests_are_those_of_maps()
    ensures { (m : modules.Module) (g : graphs.Graph) (p : standing.Labels) → IsGraphOf m g → sites_of p ≡ candidate_ids g → (f : func_ids.FuncId) (t : trees.Tree) → f.0 < length g.funcs → standing.IsTreeOf m g p f t → t ≡ tree m g (filled Keep (labels p)) f.0 }
{}

/// A reached function is kept by the test exactly where it is external or a kept site with a reached caller calls it. It does
/// nothing: its contract is the law.
pub fn the_test_of_who_is_kept_is_exact()
    ensures { (g : graphs.Graph) (d : List (site_ids.SiteId × Label)) (f : func_ids.FuncId) → IsReached g f → (is_kept g (map_of d) f.0 ≡ true → IsKept g d f) × (IsKept g d f → is_kept g (map_of d) f.0 ≡ true) }
{}

/// Trees of one function are the same where the same sites are inlined somewhere in them, whatever the partial maps for which they
/// stand: a function's number and the inlined sites that its tree reaches are a key of its expanded body. It does nothing: its
/// contract is the law.
pub fn the_reached_sites_are_a_key()
    ensures { (m : modules.Module) (g : graphs.Graph) → IsGraphOf m g → (p q : standing.Labels) → sites_of p ≡ candidate_ids g → sites_of q ≡ candidate_ids g → (f : func_ids.FuncId) (t u : trees.Tree) → f.0 < length g.funcs → standing.IsTreeOf m g p f t → standing.IsTreeOf m g q f u → ((s : ℕ) → reaches t s ≡ reaches u s) → t ≡ u }
{}
