//! Why bytes were not read, or not written.

/// What is wrong with a field, and the place of its first byte.
#[derive(Clone, Copy, Debug, PartialEq, Eq)]
pub enum ByteFault {
    /// The field that begins there does not fit in the bytes that are left.
    Truncated(u32),
    /// The varint that begins there is complete, and not the one spelling of a number below 2^64.
    BadNumber(u32),
}

/// Memory ran out.
#[derive(Clone, Copy, Debug, PartialEq, Eq)]
pub struct NoMemory;
