//! Ways through a graph.

use snap_base::Items;

/// A way through a graph: the number of a root, and then the numbers of edges. The edges of a node are its
/// prototype, its properties in own-key order and its elements, numbered from 0.
#[derive(Debug, Drop)]
pub struct Path {
    /// The number of the root, and then those of the edges.
    pub edges: Items<u32>,
}
