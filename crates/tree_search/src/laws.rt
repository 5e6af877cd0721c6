ghost use Rattle.std.specs.Prelude.{◌≡◌, ◌+◌, ◌≤◌, ℕ, List, length, Some};
ghost use Rattle.ir_core.specs.declared.limits.TheConstants.{MOST_SITES};
ghost use Rattle.ir_core.specs.declared.module.Module as modules;
ghost use Rattle.call_graph.specs.Graph as graphs;
ghost use Rattle.component_split.specs.Graph.{SiteGraph, Labels, Distinct, Closed};
ghost use Rattle.component_split.specs.Tree as counted;
ghost use Rattle.component_split.specs.Over.{site_graph, reached_from};
ghost use Rattle.component_split.specs.States.{none_decided};
ghost use Rattle.inline_certificate.specs.declared.certificates.Certificate as certificates;
ghost use Rattle.inline_certificate.specs.Trees as trees;
ghost use Rattle.inline_certificate.specs.Trees.{preorder, IsIn, form_of};
ghost use Rattle.shapes.specs.Over.{IsGraphOf};
ghost use Rattle.size_measure.specs.Maps.{Map, Completes, map_of};
ghost use Rattle.size_measure.specs.Sizes.{plus, IsAtMost, size};
ghost use Rattle.cert_checker.specs.Worth.{Passes};
ghost use Rattle.tree_search.specs.Values.{value, visits, depth, pick};
ghost use Rattle.tree_search.specs.Search.{Rules, IsTree, IsSearchTree, rules, rules_without_cuts};

/// A state has one tree, whatever its leaves state and where inline children are cut. It does nothing: its contract is the law.
pub fn a_state_has_one_search_tree()
    ensures some { (g : SiteGraph) (r : Rules) (p : Labels) (fs : List ℕ) → Distinct fs → (t : trees.Tree) × IsTree g r p fs t }
    ensures one { (g : SiteGraph) (r : Rules) (t u : trees.Tree) (p : Labels) (fs : List ℕ) → IsTree g r p fs t → IsTree g r p fs u → t ≡ u }
{}

/// The map that the tree of a module's search picks is a map over the candidates, its size is the tree's value and the stub's 16
/// bytes, and no map over the candidates has less; where the value is none, no map has a size. The certificate that states the
/// tree, the size and the map passes. It does nothing: its contract is the law.
pub fn the_picked_map_is_least()
    ensures map { (m : modules.Module) (g : graphs.Graph) → IsGraphOf m g → (t : trees.Tree) → IsSearchTree m g t → Completes (pick (site_graph g) (none_decided g) (reached_from 0 g.funcs) t) (none_decided g) }
    ensures size { (m : modules.Module) (g : graphs.Graph) → IsGraphOf m g → (t : trees.Tree) → IsSearchTree m g t → size m g (pick (site_graph g) (none_decided g) (reached_from 0 g.funcs) t) ≡ plus (Some 16) (value t) }
    ensures least { (m : modules.Module) (g : graphs.Graph) → IsGraphOf m g → (t : trees.Tree) → IsSearchTree m g t → (d : Map) → Completes d (none_decided g) → IsAtMost (size m g (pick (site_graph g) (none_decided g) (reached_from 0 g.funcs) t)) (size m g d) }
    ensures passes { (m : modules.Module) (g : graphs.Graph) → IsGraphOf m g → (t : trees.Tree) → IsSearchTree m g t → (c : certificates.Certificate) (n : ℕ) → value t ≡ Some n → c.tree ≡ preorder t → c.text ≡ n + 16 → ((s : ℕ) → map_of c.map s ≡ pick (site_graph g) (none_decided g) (reached_from 0 g.funcs) t s) → Passes m g c }
{}

/// Cuts take nothing away: over a closed state the tree with cuts has the value of the tree without and picks the same map, and
/// it has no more nodes than the tree that `count_nodes` counts. It does nothing: its contract is the law.
pub fn cuts_take_nothing_away()
    ensures value { (m : modules.Module) (g : graphs.Graph) (t u : trees.Tree) (p : Labels) (fs : List ℕ) → Closed (site_graph g) p fs → IsTree (site_graph g) (rules_without_cuts m g) p fs t → IsTree (site_graph g) (rules m g) p fs u → value t ≡ value u }
    ensures map { (m : modules.Module) (g : graphs.Graph) (t u : trees.Tree) (p : Labels) (fs : List ℕ) → Closed (site_graph g) p fs → IsTree (site_graph g) (rules_without_cuts m g) p fs t → IsTree (site_graph g) (rules m g) p fs u → (s : ℕ) → pick (site_graph g) p fs t s ≡ pick (site_graph g) p fs u s }
    ensures nodes { (t : trees.Tree) (u : counted.Tree) (g : graphs.Graph) (r : Rules) (p : Labels) (fs : List ℕ) → IsTree (site_graph g) r p fs t → counted.IsTree (site_graph g) p fs u → visits t ≤ counted.nodes u }
{}

/// The tree of the search of a graph of at most `MOST_SITES` sites is at most 8,194 nodes deep, and one that certificates of version
/// 2 have. It does nothing: its contract is the law.
pub fn a_search_tree_is_not_too_deep()
    ensures depth { (m : modules.Module) (g : graphs.Graph) → IsGraphOf m g → length g.sites ≤ MOST_SITES → (t : trees.Tree) → IsSearchTree m g t → depth t ≤ 8194 }
    ensures form { (m : modules.Module) (g : graphs.Graph) → IsGraphOf m g → length g.sites ≤ MOST_SITES → (t : trees.Tree) → IsSearchTree m g t → IsIn (form_of 2) 1 t }
{}
