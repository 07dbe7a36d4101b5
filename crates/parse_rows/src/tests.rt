//! Sources with their trees or why they have none.

mod beside_node;
mod levels;
mod node_tables;
mod shown;
mod sizes;
mod tokens;

use snap_parse::{SourceFault, parse};
use std::alloc::{AllocError, Global};

/// The tree of a source as text, or why it has none.
fn answer(alloc: Global, source: &[u8]) -> Result<String, AllocError> {
    match parse(alloc, source) {
        Ok(tree) => shown::shown(alloc, &tree),
        Err(fault) => refusal(alloc, fault),
    }
}

/// Why a source has no tree, as text.
fn refusal(alloc: Global, fault: SourceFault) -> Result<String, AllocError> {
    match fault {
        SourceFault::NoMemory => Err(AllocError),
        other => format!(in alloc; "{other:?}"),
    }
}
