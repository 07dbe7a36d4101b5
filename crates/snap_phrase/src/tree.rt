//! The table of a script.

ghost use Rattle.std.specs.Prelude.{◌≡◌, suc, IfOk};
ghost use Rattle.spec_grammar.specs.Numbered as spec;

use crate::numbered::child;
use crate::numbered_form::numbered_form;
use crate::row::Row;
use snap_ast::{Items, Tree, TreeNode};
use std::alloc::{AllocError, Global};

/// The number of the node behind so many, or want of memory where a table has no such number.
fn behind(count: usize) -> Result<u32, AllocError>
    ensures { IfOk result (λ number. number ≡ suc count) }
{
    match u32::try_from(count) {
        Ok(number) => child(1, number),
        Err(_) => Err(AllocError),
    }
}

/// Nodes with the numbers of the table.
#[tactic(auto, using(crate::proofs::Numbering::one_node))]
fn numbered_nodes(alloc: Global, nodes: Vec<TreeNode>) -> Result<Items<TreeNode>, AllocError>
    ensures { IfOk result (λ table. table ≡ spec.numbered 0 nodes.items) }
{
    let mut done = Vec::with_capacity(alloc, nodes.len())?;
    for node in nodes {
        let TreeNode { form, at } = node;
        let form = numbered_form(alloc, behind(done.len())?, form)?;
        done.push(TreeNode { form, at })?;
    }
    Ok(Items::from_vec(done))
}

/// The tree of a script with these statements.
pub fn tree_of(alloc: Global, row: Row<u32>) -> Result<Tree, AllocError>
    ensures { IfOk result (λ tree. tree ≡ spec.tree_of row) }
{
    let (top, below) = row.into_parts();
    let nodes = numbered_nodes(alloc, below.into_nodes())?;
    Ok(Tree { nodes, top })
}
