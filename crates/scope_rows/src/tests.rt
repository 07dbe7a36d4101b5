//! Sources with their scopes or their early errors.

ghost use Rattle.std.specs.Prelude.{◌<◌, ◌≡◌, length, IfOk, IfSome};
ghost use Rattle.snap_ast.specs.Lawful.{Lawful};

mod chains;
mod faults;
mod many;
mod names;
mod places;

use snap_ast::Tree;
use snap_graph::ScopeKind;
use snap_parse::{SourceFault, parse};
use snap_scope::{ScopeFault, ScopeNeed, Scopes, resolve};
use std::alloc::{AllocError, Global};

/// The tree of a source, where it has one.
fn tree_of(alloc: Global, source: &[u8]) -> Result<Option<Tree>, AllocError>
    ensures { IfOk result (λ tree. IfSome tree Lawful) }
{
    match parse(alloc, source) {
        Ok(tree) => Ok(Some(tree)),
        Err(SourceFault::NoMemory) => Err(AllocError),
        Err(_) => Ok(None),
    }
}

/// A source with a mark `|`: the source without it, and the place of the mark.
fn unmarked(alloc: Global, marked: &str) -> Result<(String, usize), AllocError> {
    let mut source = String::new(alloc);
    match marked.split_once('|') {
        Some((before, behind)) => {
            source.push_str(before)?;
            source.push_str(behind)?;
            Ok((source, before.len()))
        }
        None => {
            source.push_str(marked)?;
            Ok((source, 0))
        }
    }
}

/// The last node of a tree that begins at a place.
fn node_at(tree: &Tree, at: usize) -> Option<u32>
    ensures { IfSome result (λ node. node < length tree.now.nodes) }
{
    let mut found = None;
    for (number, node) in tree.nodes.as_slice().iter().enumerate() {
        if node.at as usize == at && number < u32::MAX as usize {
            found = Some(number as u32);
        }
    }
    found
}

/// What a scope needs, as text.
fn put_need(alloc: Global, need: ScopeNeed, out: &mut String) -> Result<(), AllocError> {
    let kind = match need.kind {
        ScopeKind::Script => "Script ",
        ScopeKind::Function => "Function ",
        ScopeKind::Block => "Block ",
        ScopeKind::Loop => "Loop ",
        ScopeKind::Catch => "Catch ",
    };
    out.push_str(kind)?;
    out.push_str(need.slots.to_string(alloc)?.as_str())?;
    out.push(' ')
}

/// The scopes of a tree, or its early error as text.
fn scopes_of(alloc: Global, tree: &Tree) -> Result<Result<Scopes, String>, AllocError>
    requires { Lawful tree.now }
    ensures { IfOk result (λ answer. IfOk answer (λ scopes. length scopes.nodes ≡ length tree.now.nodes)) }
{
    match resolve(alloc, tree) {
        Ok(scopes) => Ok(Ok(scopes)),
        Err(ScopeFault::NoMemory) => Err(AllocError),
        Err(fault) => Ok(Err(format!(in alloc; "{fault:?}")?)),
    }
}
