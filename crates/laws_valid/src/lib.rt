//! Laws of graphs that are valid for scripts: what accesses leave, and how functions and scopes are made. A
//! graph is valid for scripts if it is a heap in which each function closes over scopes that its place in its
//! script asks for, and nothing else holds a scope. Where a graph is valid for several lists of scripts it
//! stays so for each of them.
#![tactic(auto)]

mod access;
mod making;

pub use access::{accesses_keep_graphs_valid, values_and_chains_stay};
pub use making::{
    functions_are_made_valid, intrinsics_are_valid, scopes_are_made_valid, slots_keep_graphs_valid,
};
