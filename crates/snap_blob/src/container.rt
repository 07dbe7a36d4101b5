//! The container: a header, the ends of the sections, and the sections without gaps.

ghost use Rattle.std.specs.Prelude.{◌≡◌, ◌+◌, ◌*◌, ◌<◌, ◌≤◌, ◌^◌, ◌++◌, ◌↔◌, length, IsTrue, IfOk};
ghost use Rattle.spec_format.specs.Check.{AllHold, Passes, each};
ghost use Rattle.spec_format.specs.Container.{HasDigest, HasSectionEnds, container_checks, end_entry, header_checks, last_check, section, section_checks, section_count, section_start};

use crate::field::{fault, number32, part, same};
use sha2::{Digest, Sha256};
use snap_base::MOST_BLOB_BYTES;
use spec_format::{BlobFault, BlobKind};
use std::marker::Model;

const MAGIC: [u8; 8] = *b"SNAPBLOB";

/// The bytes of a blob whose container has no fault. It is seen as these bytes.
#[derive(Drop)]
pub struct Container<'a> {
    bytes: &'a [u8],
}

impl<'a> Model for Container<'a> {
    ghost use Rattle.std.specs.Prelude.{ℕ, List};
    ghost use Rattle.spec_format.specs.Check.{AllHold};
    ghost use Rattle.spec_format.specs.Container.{container_checks};

    ghost Value = { List ℕ };

    ghost view = { λ c. c.bytes.now };

    ghost invariant = { λ c. AllHold (container_checks c.bytes.now) };
}

impl<'a> Container<'a> {
    /// The container that the bytes are, or its first fault.
    pub fn take(bytes: &'a [u8]) -> Result<Container<'a>, BlobFault>
        ensures first_fault { Passes (container_checks bytes.now) result }
        ensures value { IfOk result (λ c. c ≡ bytes.now) }
    {
        check_header(bytes)?;
        check_ends(bytes)?;
        Ok(Container { bytes })
    }

    /// How many sections there are, 4 to 19.
    pub fn sections(&self) -> u32
        ensures count { result ≡ section_count self.now }
        ensures least { 4 ≤ result }
        ensures most { result ≤ 19 }
    {
        number32(self.bytes, 48)
    }

    /// The bytes of a section.
    pub fn section(&self, k: u32) -> &'a [u8]
        requires { k < section_count self.now }
        ensures bytes { result.now ≡ section self.now k }
        ensures within { section_start self.now k + length result.now ≤ MOST_BLOB_BYTES }
    {
        let start = self.start(k) as usize;
        let end = number32(self.bytes, 52 + 4 * k as usize) as usize;
        part(self.bytes, start, end)
    }

    /// The place in the blob where a section begins.
    pub fn start(&self, k: u32) -> u32
        requires { k < section_count self.now }
        ensures { result ≡ section_start self.now k }
    {
        if k == 0 {
            52 + 4 * number32(self.bytes, 48)
        } else {
            number32(self.bytes, 48 + 4 * k as usize)
        }
    }
}

fn check_header(bytes: &[u8]) -> Result<(), BlobFault>
    ensures { Passes (header_checks bytes.now) result }
{
    if bytes.len() > MOST_BLOB_BYTES as usize {
        return Err(fault(BlobKind::TooLong, MOST_BLOB_BYTES as usize));
    }
    if bytes.len() < 52 {
        return Err(fault(BlobKind::TooShort, bytes.len()));
    }
    if !same(&bytes[..8], &MAGIC) {
        return Err(fault(BlobKind::BadMagic, 0));
    }
    if number32(bytes, 8) != 1 {
        return Err(fault(BlobKind::BadVersion, 8));
    }
    if number32(bytes, 12) as usize != bytes.len() {
        return Err(fault(BlobKind::BadLength, 12));
    }
    if !has_digest(bytes) {
        return Err(fault(BlobKind::BadDigest, 16));
    }
    if !has_section_ends(bytes) {
        return Err(fault(BlobKind::BadSections, 48));
    }
    Ok(())
}

fn has_digest(bytes: &[u8]) -> bool
    requires { 52 ≤ length bytes.now }
    ensures { IsTrue result ↔ HasDigest bytes.now }
{
    same(&bytes[16..48], &Sha256::digest(&bytes[48..]))
}

fn has_section_ends(bytes: &[u8]) -> bool
    requires { 52 ≤ length bytes.now }
    ensures { IsTrue result ↔ HasSectionEnds bytes.now }
{
    let count = number32(bytes, 48) as usize;
    (4..=19).contains(&count) && 52 + 4 * count <= bytes.len()
}

fn check_ends(bytes: &[u8]) -> Result<(), BlobFault>
    requires { AllHold (header_checks bytes.now) }
    ensures { Passes (each (section_count bytes.now) (section_checks bytes.now) ++ last_check bytes.now) result }
{
    let count = number32(bytes, 48) as usize;
    let mut start = 52 + 4 * count;
    for k in 0..count {
        let end = number32(bytes, 52 + 4 * k) as usize;
        if end < start || bytes.len() < end {
            return Err(fault(BlobKind::BadSections, 52 + 4 * k));
        }
        start = end;
    }
    if start != bytes.len() {
        return Err(fault(BlobKind::BadSections, 52 + 4 * (count - 1)));
    }
    Ok(())
}
