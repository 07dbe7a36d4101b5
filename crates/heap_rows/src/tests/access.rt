//! Tests over a plain store.

mod beside_node;
mod globals;
mod known;
mod samples;
mod steps;
