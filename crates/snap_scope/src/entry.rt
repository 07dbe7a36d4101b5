//! A tree with its own scopes.

use crate::scopes::Scopes;
use snap_ast::Tree;

/// A tree and its scopes. Who takes one asks that the tree is lawful and that the scopes are its own.
#[derive(Drop)]
pub struct Entry {
    /// The tree.
    pub tree: Tree,
    /// Its scopes.
    pub scopes: Scopes,
}

/// A tree and its scopes, borrowed. Who takes one asks that the tree is lawful and that the scopes are its own.
#[derive(Clone, Copy)]
pub struct EntryRef<'e> {
    /// The tree.
    pub tree: &'e Tree,
    /// Its scopes.
    pub scopes: &'e Scopes,
}
