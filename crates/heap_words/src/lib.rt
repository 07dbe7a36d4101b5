//! What the tests of heaps share: values as rows write them, nodes that are made, and why a call of a test gives nothing.
#![tactic(auto)]

mod nodes;
mod refused;
mod values;

pub use nodes::{last_node, new_node, takes_properties};
pub use refused::{Refused, is_refused};
pub use values::{is_value_of, value_of};
