//! Scopes of scripts: a tree is resolved once, which refuses early errors, and then answers the chain of
//! scopes round each node, the scope that a node makes, and the slot of a name from a node.
#![tactic(auto)]

mod chains;
mod checks;
mod children;
mod context;
mod declare;
mod enter;
mod entry;
mod few;
mod level;
mod many;
mod names;
mod narrow;
mod places;
mod resolving;
mod scopes;
mod slots;
mod trees;
mod visiting;

pub use entry::{Entry, EntryRef};
pub use resolving::resolve;
pub use scopes::Scopes;
pub use spec_scopes::{ScopeFault, ScopeNeed, SlotPlace};
pub use trees::Trees;
