//! Why the program refuses, and what it comes to.

use crate::refused::SourceRefused;
use spec_format::BlobFault;

/// Why a command was refused or not told whole.
#[derive(Clone, Copy, Debug, PartialEq, Eq)]
pub enum Fault {
    /// The words ask for nothing that there is.
    Words,
    /// The source of this number is refused: its place among the sources of a build, and for an entry
    /// the number of the blob's scripts.
    Source(u32, SourceRefused),
    /// The blob has this fault first.
    Blob(BlobFault),
    /// The source, the entry or the blob is beyond what this program does.
    NotBuilt,
    /// There is no entry, and the blob has no main function.
    NothingToRun,
    /// A read of the files failed.
    Read,
    /// A write of the file, or to the sink, failed.
    Write,
    /// Memory ran out.
    NoMemory,
}
