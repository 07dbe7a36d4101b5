//! What the sections of a blob mean as graphs, and the laws of that meaning.
#![tactic(auto)]

mod laws;

pub use laws::{one_global, one_property_list};
