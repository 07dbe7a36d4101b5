//! A syntax tree as a table of nodes.

use crate::form::Form;
use snap_base::Items;

/// A node of a tree: a statement or an expression.
#[derive(Debug, Drop)]
pub struct TreeNode {
    /// Its production and its children.
    pub form: Form,
    /// The place in the source of the first byte of its phrase, of a parenthesis too.
    pub at: u32,
}

/// A syntax tree. Its nodes are numbered from 0 in preorder, children in the order of the source.
#[derive(Debug, Drop)]
pub struct Tree {
    /// The nodes by their numbers.
    pub nodes: Items<TreeNode>,
    /// The numbers of the statements of the script, in order.
    pub top: Items<u32>,
}
