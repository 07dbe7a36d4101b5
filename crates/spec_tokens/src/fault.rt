//! Why a source has no tokens.

/// Why a source has no list of tokens, and the place in the source where it shows.
#[derive(Clone, Copy, Debug, PartialEq, Eq)]
pub enum LexFault {
    /// A byte that cannot stand at its place, or the backslash of a wrong escape.
    BadByte(u32),
    /// A text or a block comment begins here and has no end.
    Unclosed(u32),
    /// A number begins here that is above 9007199254740991.
    BigLiteral(u32),
    /// Memory ran out.
    NoMemory,
}
