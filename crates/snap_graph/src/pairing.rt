//! Which node of one graph stands for which node of another.

use snap_base::Items;

/// A node of one graph and the node of another that stands for it.
#[derive(Clone, Copy, Debug, PartialEq, Eq)]
pub struct Pair {
    /// The number of the node in the first graph.
    pub first: u32,
    /// The number of the node in the second graph.
    pub second: u32,
}

/// Which node of one graph stands for which node of another.
#[derive(Debug, Drop)]
pub struct Pairing {
    /// The pairs.
    pub pairs: Items<Pair>,
}
