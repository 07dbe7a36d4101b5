//! Actions on matching heaps, and on states with matching heaps, go alike.
#![tactic(auto)]

mod access;
mod actions;
mod asking;
mod matching;
mod operations;
mod operators;
mod world;

pub use access::accesses_go_alike;
pub use actions::{actions_go_alike, lifted_actions_go_alike};
pub use asking::{globals_go_alike, questions_go_alike};
pub use matching::{matching_states_match, paired_numbers_are_the_same_together};
pub use operations::{changes_go_alike, looks_go_alike, making_goes_alike};
pub use operators::{agreeing_values_convert_alike, operators_give_the_same, operators_go_alike};
pub use world::{Related, agreement_stays, worlds_grow_on};
