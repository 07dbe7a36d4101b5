//! Why a source has no tree.

use snap_lex::LexFault;

/// Why a source has no tree.
#[derive(Clone, Copy, Debug, PartialEq, Eq)]
pub enum SourceFault {
    /// It has no tokens, for a cause which is never want of memory.
    Lex(LexFault),
    /// The grammar has no such token at this place in bytes, which is the length of the source at its end.
    Syntax(u32),
    /// More than 100 nodes would stand round one at this place.
    Nested(u32),
    /// It has more than 1,048,576 bytes.
    TooLong,
    /// The memory that the call needed was refused.
    NoMemory,
}
