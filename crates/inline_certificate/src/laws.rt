ghost use Rattle.std.specs.Prelude.{◌≡◌};
ghost use Rattle.inline_certificate.specs.Trees.{Tree, IsIn, any_form, preorder};

/// No two trees have the same nodes in preorder. It does nothing: its contract is the law.
#[tactic(auto, using(crate::proofs::OneTree::one_tree))]
pub fn nodes_are_those_of_one_tree()
    ensures { (t u : Tree) → IsIn any_form 1 t → IsIn any_form 1 u → preorder t ≡ preorder u → t ≡ u }
{}
