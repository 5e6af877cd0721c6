ghost use Rattle.std.specs.Prelude.{◌≡◌, IsSome};
ghost use Rattle.oi_base.specs.declared.ids.FuncId as func_ids;
ghost use Rattle.ir_core.specs.declared.module.Module as modules;
ghost use Rattle.call_graph.specs.Graph as graphs;
ghost use Rattle.shapes.specs.Over.{IsGraphOf};
ghost use Rattle.shapes.specs.Standing.{Trees, IsForest, tree_of};
ghost use Rattle.shapes.specs.Reaching.{InlinesLead, IsCount, reaching_count};

/// A map has one forest: forests over one module and one graph that stand for one map have the same trees, whatever the order
/// of the decisions that led there. It does nothing: its contract is the law.
pub fn a_map_has_one_forest()
    ensures { (m : modules.Module) (g : graphs.Graph) (x y : Trees) → IsForest m g x → IsForest m g y → x.labels ≡ y.labels → x.trees ≡ y.trees }
{}

/// In a forest a reached function stands in as many trees as there are functions from which a chain of inline sites, of none or
/// more, leads to it. It does nothing: its contract is the law.
pub fn trees_of_those_that_reach_are_counted()
    ensures { (m : modules.Module) (g : graphs.Graph) (x : Trees) (c : func_ids.FuncId) → IsGraphOf m g → IsForest m g x → IsSome (tree_of x c) → IsCount (λ f. InlinesLead g x.labels f c.0) (reaching_count c x.trees) }
{}
