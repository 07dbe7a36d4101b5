//! Nodes and graphs of them.

use crate::kind::Kind;
use crate::value::{Property, Value};
use snap_base::Items;

/// A node of a heap.
#[derive(Debug, Drop)]
pub struct Node {
    /// What it is.
    pub kind: Kind,
    /// Its prototype: null or a node. That of a scope is the scope round it.
    pub prototype: Value,
    /// Whether its properties, and the elements of an array, stay as they are.
    pub frozen: bool,
    /// Its own properties, in order of creation.
    pub properties: Items<Property>,
    /// Its elements, as its kind has them.
    pub elements: Items<Value>,
}

/// A heap: its nodes by number. The first 62 are the intrinsics.
#[derive(Debug, Drop)]
pub struct Graph {
    /// The nodes, from number 0 on.
    pub nodes: Items<Node>,
}
