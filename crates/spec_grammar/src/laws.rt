//! The laws of the grammar. Each function does nothing: what it ensures holds of every source.

ghost use Rattle.std.specs.Prelude.{◌≡◌, ◌⊎◌, ℕ, List, Ok, Err};
ghost use Rattle.snap_ast.specs.Lawful.{Lawful};
ghost use Rattle.snap_ast.specs.declared.tree.Tree.{Tree};
ghost use Rattle.spec_grammar.specs.Outcome.{Cause, Nested, Syntax};
ghost use Rattle.spec_grammar.specs.Source.{HasDeepTree, HasTree, NoTree, read_tree};

/// What a source has for a tree is read.
pub fn trees_are_read()
    ensures { (source : List ℕ) (tree : Tree) → HasTree source tree → read_tree source ≡ Ok tree }
{}

/// What is read is a tree of the source.
pub fn read_are_trees()
    ensures { (source : List ℕ) (tree : Tree) → read_tree source ≡ Ok tree → HasTree source tree }
{}

/// A source has one tree at most, of whatever height.
pub fn one_tree()
    ensures { (source : List ℕ) (tree other : Tree) → HasDeepTree source tree → HasDeepTree source other → tree ≡ other }
{}

/// Where the grammar has no such token, the source has no tree of any height.
pub fn syntax_has_no_tree()
    ensures { (source : List ℕ) (at : ℕ) (tree : Tree) → read_tree source ≡ Err (NoTree Syntax at) → HasDeepTree source tree → ⊥ }
{}

/// A source that is refused has no tree within the levels.
pub fn refused_has_no_tree()
    ensures { (source : List ℕ) (cause : Cause) (at : ℕ) (tree : Tree) → read_tree source ≡ Err (NoTree cause at) → HasTree source tree → ⊥ }
{}

/// A tree that is too high is within the levels or refused as such.
pub fn deep_are_nested()
    ensures { (source : List ℕ) (tree : Tree) → HasDeepTree source tree → HasTree source tree ⊎ ((at : ℕ) × (read_tree source ≡ Err (NoTree Nested at))) }
{}

/// A tree that a source has is lawful.
pub fn trees_are_lawful()
    ensures { (source : List ℕ) (tree : Tree) → HasTree source tree → Lawful tree }
{}
