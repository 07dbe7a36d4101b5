//! How far a run may go, and how much a source, a blob and a run may hold.

/// The most bytes of a source.
pub const MOST_SOURCE_BYTES: u32 = 1_048_576;

/// The most bytes of a blob.
pub const MOST_BLOB_BYTES: u32 = 67_108_864;

/// The most code units of a text, a word of the command line too, elements of an array, records of a Map or Set, removed ones included,
/// and bytes that one isolate or one context of a build prints.
pub const MOST_ITEMS: u32 = 16_777_216;

/// The most properties that one node has of its own.
pub const MOST_PROPERTIES: u32 = 1_048_576;

/// The most private nodes of one isolate.
pub const MOST_PRIVATE_NODES: u32 = 1_048_576;

/// How far a run may go.
#[derive(Clone, Copy, Debug, PartialEq, Eq)]
pub struct Limits {
    /// How many steps it may take in all, from 0 to 1,000,000,000,000.
    pub budget: u64,
    /// How many statements and expressions may stand inside each other, across calls.
    pub depth: u32,
}
