//! Tests of what no clause says.

pub(crate) mod beside_node;
mod limits;
mod samples;
