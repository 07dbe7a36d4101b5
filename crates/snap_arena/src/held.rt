//! A text that an arena holds.

/// A text that an arena holds: so many units from a place of one of its buffers on. It means nothing without the arena,
/// and means the same for as long as that stands.
#[derive(Clone, Copy, Debug, PartialEq, Eq)]
pub struct HeldText {
    pub(crate) buffer: u32,
    pub(crate) start: u32,
    pub(crate) length: u32,
}
