//! What is wrong with a blob, and where.

/// The kinds of faults of a blob, in order of their numbers.
#[derive(Clone, Copy, Debug, PartialEq, Eq)]
pub enum BlobKind {
    /// The blob has more than 67,108,864 bytes.
    TooLong,
    /// The blob has fewer than 52 bytes.
    TooShort,
    /// The blob does not begin with `SNAPBLOB`.
    BadMagic,
    /// The format is not 1.
    BadVersion,
    /// The length in the header is not the blob's.
    BadLength,
    /// The digest in the header is not that of the bytes from 48 on.
    BadDigest,
    /// The number of sections or one of their ends does not fit.
    BadSections,
    /// An external name was not handed in, or stands twice. Holds its place in the blob's list.
    ExternalMissing(u32),
    /// A field does not fit in its section.
    Truncated,
    /// A byte or kind is none of those allowed in its place.
    BadOp,
    /// A number is not spelled in the one way, or is out of its range.
    BadNumber,
    /// A string is too long, ends before it begins, or is not above the string before.
    BadString,
    /// A number names no string, node, function, shape or external.
    BadReference,
    /// A shape or node has a key twice, or a shape stands twice.
    BadShape,
    /// A property table is not one that its keys and the stored hash seed give.
    BadTable,
    /// A script has no tree, or an early error.
    BadSource,
    /// The scopes of a function are not those of its tree node.
    BadScope,
    /// A root of a context is none that may stand there.
    BadRoot,
    /// Bytes are left behind the last field of a section.
    Trailing,
}

/// What is wrong with a blob first: its kind, and the place in the blob where it shows.
#[derive(Clone, Copy, Debug, PartialEq, Eq)]
pub struct BlobFault {
    /// What is wrong.
    pub kind: BlobKind,
    /// The place, in bytes from the front of the blob.
    pub at: u32,
}
