//! Why a source is refused.

use snap_parse::SourceFault;
use snap_scope::ScopeFault;

/// Why a source or an entry is refused.
#[derive(Clone, Copy, Debug, PartialEq, Eq)]
pub enum SourceRefused {
    /// It has no tree, by this fault, which is never want of memory.
    Parse(SourceFault),
    /// Its tree has an early error, this one, which is never want of memory.
    Scope(ScopeFault),
}
