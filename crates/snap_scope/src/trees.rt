//! Trees of scripts with their scopes, whoever keeps them.

ghost use Rattle.std.specs.Prelude.{◌≡◌, ℕ, Option, None, Some, MatchOption, IfSome};
ghost use Rattle.std.specs.Option.{option_copied};
ghost use Rattle.snap_ast.specs.declared.tree.Tree.{Tree};
ghost use Rattle.spec_scopes.specs.Resolution.{AreTogether};
ghost use Rattle.spec_scopes.specs.Valid.{IsScript};

use crate::scopes::Scopes;
use snap_ast::Tree;

/// Scripts by number, each with its tree and its scopes.
pub trait Trees {
    /// The tree of a script, where there is one of this number.
    ghost tree_of: { Self → ℕ → Option Tree };

    /// The tree of a script, which is lawful and has no early error.
    fn tree(&self, script: u32) -> Option<&Tree>
        ensures value { option_copied result ≡ tree_of self.now script }
        ensures script { IfSome result (λ tree. IsScript tree.now) };

    /// The scopes of a script, which are there exactly for the scripts that have a tree, and are those of that tree.
    fn scopes(&self, script: u32) -> Option<&Scopes>
        ensures { MatchOption result (tree_of self.now script ≡ None) (λ scopes. (tree : Tree) × (tree_of self.now script ≡ Some tree) × AreTogether tree scopes.now) };
}
