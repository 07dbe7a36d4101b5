//! Syntax trees of scripts: a table of nodes in preorder, each with its production.
#![tactic(auto)]

mod form;
mod laws;
mod operator;
mod part;
mod rows;
mod tree;

pub use form::Form;
pub use laws::{nodes_are_lawful, nodes_have_one_parent};
pub use operator::{AssignOperator, BinaryOperator, UnaryOperator, UpdateOperator};
pub use part::{Binding, ConstBinding, Named, Property, PropertyKey};
pub use rows::{worked_levels, worked_unlawful};
pub use snap_base::Items;
pub use tree::{Tree, TreeNode};
