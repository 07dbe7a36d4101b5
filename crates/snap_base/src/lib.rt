//! What every crate of the programs shares: lists in public types, want of memory, why a run stops, how far it may
//! go, and the hash of a text.
#![tactic(auto)]

mod hash;
mod items;
mod limits;
mod no_memory;
mod stop;

pub use hash::hash_units;
pub use items::Items;
pub use limits::{
    Limits, MOST_BLOB_BYTES, MOST_ITEMS, MOST_PRIVATE_NODES, MOST_PROPERTIES, MOST_SOURCE_BYTES,
};
pub use no_memory::NoMemory;
pub use stop::Stop;
