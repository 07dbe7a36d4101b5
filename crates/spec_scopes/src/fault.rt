//! Why a tree has no scopes.

/// An early error, with the place in the source that shows it, or want of memory.
#[derive(Clone, Copy, Debug, PartialEq, Eq)]
pub enum ScopeFault {
    /// One scope declares a name twice, or a catch block declares the name of its catch. The place is that
    /// of the later name.
    Duplicate(u32),
    /// What is assigned or updated is no name, member or index. The place is that of its first byte.
    BadTarget(u32),
    /// A `break` or `continue` stands in no loop of its function, or a `return` in no function. The place is
    /// that of its first byte.
    StrayJump(u32),
    /// Memory ran out.
    NoMemory,
}
