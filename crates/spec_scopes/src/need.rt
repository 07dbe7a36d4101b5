//! What a scope needs when it is made.

use snap_graph::ScopeKind;

/// The kind of a scope and how many slots it has.
#[derive(Clone, Copy, Debug, PartialEq, Eq)]
pub struct ScopeNeed {
    /// Which declarations it holds.
    pub kind: ScopeKind,
    /// How many names it declares.
    pub slots: u32,
}
