//! What values and heaps come to: operators, the operations of a heap, and property access.
#![tactic(auto)]

mod access;
mod operations;
mod operator;
mod operators;
mod rows;

pub use access::{
    access_gives_values, access_keeps_heaps, access_keeps_nodes, access_uses_its_key_once,
};
pub use operations::{
    elements_keep_heaps, making_keeps_heaps, marks_keep_heaps, properties_keep_heaps,
};
pub use operator::{BinaryOp, UnaryOp};
pub use operators::{operators_give_values, same_values_are_one};
pub use rows::{rows_of_get, rows_of_globals, rows_of_operators, rows_of_set, rows_of_tests};
