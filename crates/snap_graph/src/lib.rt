//! Heap graphs: values, nodes, paths through them, and which graphs match.
#![tactic(auto)]

mod ending;
pub mod intrinsic;
mod kind;
mod laws;
mod node;
mod pairing;
mod path;
mod value;

pub use ending::Ending;
pub use kind::{Kind, ScopeKind};
pub use laws::{
    heaps_match_themselves, indices_are_decimal, intrinsics_are_a_heap, last_index,
    matching_is_symmetric, matching_keeps_paths, own_keys_are_in_order, paths_are_ordered,
};
pub use node::{Graph, Node};
pub use pairing::{Pair, Pairing};
pub use path::Path;
pub use snap_base::Items;
pub use value::{Property, Value};
