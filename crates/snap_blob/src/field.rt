//! One field of a blob, and a fault at one.

ghost use Rattle.std.specs.Prelude.{◌≡◌, ◌+◌, ◌<◌, ◌≤◌, ◌^◌, ◌↔◌, length, slice_range, IsTrue};
ghost use Rattle.spec_format.specs.Number.{number32};

use byteorder::{ByteOrder, LittleEndian};
use spec_format::{BlobFault, BlobKind};

/// The number in the four bytes from a place on, the low byte first.
#[tactic(auto, unfolding(spec_format::specs::Number::number32))]
pub(crate) fn number32(bytes: &[u8], at: usize) -> u32
    requires { at + 4 ≤ length bytes.now }
    ensures { result ≡ number32 bytes.now at }
{
    LittleEndian::read_u32(&bytes[at..])
}

/// A fault of this kind at a place.
pub(crate) fn fault(kind: BlobKind, at: usize) -> BlobFault
    requires { at < 2 ^ 32 }
    ensures { result ≡ record { kind = kind; at = at } }
{
    BlobFault {
        kind,
        at: at as u32,
    }
}

/// Whether the bytes are these.
pub(crate) fn same(bytes: &[u8], others: &[u8]) -> bool
    ensures { IsTrue result ↔ (bytes.now ≡ others.now) }
{
    bytes == others
}

/// The bytes from a place to another.
pub(crate) fn part(bytes: &[u8], start: usize, end: usize) -> &[u8]
    requires ordered { start ≤ end }
    requires within { end ≤ length bytes.now }
    ensures { result.now ≡ slice_range bytes.now start end }
{
    &bytes[start..end]
}
