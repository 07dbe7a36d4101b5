//! The scopes of scripts and their early errors, said of a tree.
//! There is no code but the types that the definitions and what resolves scopes share.
#![tactic(auto)]

mod fault;
mod laws;
mod need;
mod place;
mod rows;

pub use fault::ScopeFault;
pub use laws::{names_are_resolved, one_early_error, one_resolution, one_round, slots_in_order};
pub use need::ScopeNeed;
pub use place::SlotPlace;
pub use rows::{
    worked_block, worked_catch, worked_function, worked_loop, worked_told, worked_writes,
};
