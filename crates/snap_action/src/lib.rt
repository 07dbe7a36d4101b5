//! The calls of a store as the actions that they are, and why an action has no result.
#![tactic(auto)]

mod calls;
mod elements;
mod errors;
mod fault;
mod laws;
mod literals;
mod looks;
mod names;
mod texts;

pub use calls::{
    close_resource, freeze_node, hold_value, make_node, put_property, read_value, remove_property,
    use_text, write_property,
};
pub use elements::{add_element, pop_element, push_element, write_element};
pub use errors::{ErrorKind, throw_error};
pub use fault::Abrupt;
pub use laws::{held_results_lift, results_lift};
pub use literals::{Literal, hold_literal};
pub use looks::{
    count_elements, is_frozen, kind_of_node, list_own_keys, own_property, prototype_of,
    read_element,
};
pub use names::{Name, use_name};
pub use texts::{hold_again, is_text, join_texts, part_of_text, text_length};
