//! Want of memory.

/// The memory that a call needed was refused.
#[derive(Clone, Copy, Debug, PartialEq, Eq)]
pub struct NoMemory;
