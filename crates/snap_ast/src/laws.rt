//! The laws of lawful trees. Each function does nothing: what it ensures holds of every tree.

ghost use Rattle.std.specs.Prelude.{◌≡◌, ◌⊎◌, ℕ, ◌<◌, length, map, slice_get, Some};
ghost use Rattle.snap_ast.specs.Children.{statement};
ghost use Rattle.snap_ast.specs.Edges.{HasNode, HasParent, IsLawfulNode, IsParent, IsTop};
ghost use Rattle.snap_ast.specs.Lawful.{Lawful};
ghost use Rattle.snap_ast.specs.Words.{Each};
ghost use Rattle.snap_ast.specs.declared.tree.Tree.{Tree};
ghost use Rattle.snap_ast.specs.declared.tree.TreeNode.{TreeNode};

/// In a lawful tree the statements of the script are nodes of their class, and each node has words
/// that a source may have and children of their classes, which stand behind it.
pub fn nodes_are_lawful()
    ensures top { (tree : Tree) → Lawful tree → Each (HasNode tree.nodes) (map statement tree.top) }
    ensures node { (tree : Tree) (number : ℕ) (node : TreeNode) → Lawful tree → slice_get tree.nodes number ≡ Some node → IsLawfulNode tree.nodes number node }
{}

/// In a lawful tree each node is either a statement of the script or a child of one node, which
/// stands before it.
pub fn nodes_have_one_parent()
    ensures some { (tree : Tree) (number : ℕ) → Lawful tree → number < length tree.nodes → IsTop tree number ⊎ HasParent tree.nodes number }
    ensures none { (tree : Tree) (parent number : ℕ) → Lawful tree → IsTop tree number → IsParent tree.nodes parent number → ⊥ }
    ensures one { (tree : Tree) (parent other number : ℕ) → Lawful tree → IsParent tree.nodes parent number → IsParent tree.nodes other number → parent ≡ other }
{}
