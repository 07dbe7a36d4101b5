//! The laws of scopes. Each function does nothing: what it ensures holds of every lawful tree.

ghost use Rattle.std.specs.Prelude.{◌≡◌, ◌<◌, ℕ, List, length, slice_get, None, Some};
ghost use Rattle.snap_ast.specs.declared.tree.Tree.{Tree};
ghost use Rattle.snap_ast.specs.declared.tree.TreeNode.{TreeNode};
ghost use Rattle.snap_ast.specs.Lawful.{Lawful};
ghost use Rattle.spec_scopes.specs.EarlyErrors.{HasDuplicate, HasFault};
ghost use Rattle.spec_scopes.specs.Names.{Declared, mentions};
ghost use Rattle.spec_scopes.specs.Resolution.{AreScopes, AreTogether, Resolution, node_scopes};
ghost use Rattle.spec_scopes.specs.Round.{inside, Stands, Step};
ghost use Rattle.spec_scopes.specs.Scopes.{made, own_names, Scope, script_names, script_scope};
ghost use Rattle.spec_scopes.specs.Slots.{place_of};
ghost use Rattle.spec_scopes.specs.Told.{early_error, round_of};
ghost use Rattle.spec_scopes.specs.declared.fault.ScopeFault.{ScopeFault};

/// Each node of a tree stands in one place: it has one list of nodes round it, and so one chain of scopes. By parents
/// the list can be computed.
pub fn one_round()
    ensures some { (tree : Tree) (number : ℕ) → Lawful tree → number < length tree.nodes → (steps : List Step) × Stands tree number steps }
    ensures one { (tree : Tree) (number : ℕ) (steps others : List Step) → Lawful tree → Stands tree number steps → Stands tree number others → steps ≡ others }
    ensures computed { (tree : Tree) (number : ℕ) (steps : List Step) → Lawful tree → Stands tree number steps → round_of tree number ≡ steps }
{}

/// A tree has one account of its scopes.
pub fn one_resolution()
    ensures { (tree : Tree) (resolution other : Resolution) → Lawful tree → AreScopes tree resolution → AreScopes tree other → resolution ≡ other }
{}

/// The early error that is told of a tree stands in it, and where none is told none stands.
pub fn one_early_error()
    ensures stands { (tree : Tree) (fault : ScopeFault) → Lawful tree → early_error tree ≡ Some fault → HasFault tree fault }
    ensures none { (tree : Tree) (fault : ScopeFault) → Lawful tree → early_error tree ≡ None → HasFault tree fault → ⊥ }
{}

/// A tree that stands with its own scopes has a place for each name that a node mentions, and that is the place of the
/// name in the chain round the node: what is resolved once is what a look-up of the name gives.
pub fn names_are_resolved()
    ensures count { (tree : Tree) (resolution : Resolution) (number : ℕ) (node : TreeNode) → AreTogether tree resolution → slice_get tree.nodes number ≡ Some node
        → length (node_scopes resolution number).names ≡ length (mentions node.form) }
    ensures place { (tree : Tree) (resolution : Resolution) (number i : ℕ) (node : TreeNode) (name : List ℕ) → AreTogether tree resolution → slice_get tree.nodes number ≡ Some node → slice_get (mentions node.form) i ≡ Some name
        → slice_get (node_scopes resolution number).names i ≡ Some (place_of (node_scopes resolution number).round name) }
{}

/// Where no scope declares a name twice, the names of a scope have its slots in order of declaration, seen from inside:
/// of the scope that a node makes, in whatever chain it stands, and of that of the script.
pub fn slots_in_order()
    ensures own { (tree : Tree) (number i : ℕ) (node : TreeNode) (name : Declared) (round : List Scope) → ((at : ℕ) → HasDuplicate tree at → ⊥) → slice_get tree.nodes number ≡ Some node → slice_get (own_names tree.nodes node.form).names i ≡ Some name
        → place_of (inside (made tree.nodes node.form) round) name.named.name ≡ Some (record { hops = 0; slot = i; constant = name.is_constant }) }
    ensures script { (tree : Tree) (i : ℕ) (name : Declared) (round : List Scope) → ((at : ℕ) → HasDuplicate tree at → ⊥) → slice_get (script_names tree).names i ≡ Some name
        → place_of (inside (Some (script_scope tree)) round) name.named.name ≡ Some (record { hops = 0; slot = i; constant = name.is_constant }) }
{}
