//! Where a name is found.

/// The slot of a name, seen from a node.
#[derive(Clone, Copy, Debug, PartialEq, Eq)]
pub struct SlotPlace {
    /// How many scopes lie between: 0 is the innermost scope round the node.
    pub hops: u32,
    /// The slot in that scope, in order of declaration, from 0.
    pub slot: u32,
    /// Whether the name is a constant.
    pub constant: bool,
}
