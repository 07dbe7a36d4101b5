//! Stores of heaps: what a store's calls do, whichever way it keeps its heap.
#![tactic(auto)]

mod fault;
mod indices;
mod intrinsic_nodes;
mod laws;
mod plain_heap;
mod plain_kept;
mod plain_node;
mod plain_order;
mod plain_place;
mod plain_store;
mod plain_told;
mod store;

pub use fault::StoreFault;
pub use indices::{INDEX_END, array_index};
pub use intrinsic_nodes::intrinsics;
pub use laws::calls_are_operations;
pub use plain_node::PlainValue;
pub use plain_store::{NoRoom, PlainStore};
pub use store::Store;
