//! The container of some sections, written.

ghost use Rattle.std.specs.Prelude.{◌≡◌, ℕ, ◌+◌, ◌*◌, ◌<◌, ◌≤◌, ◌^◌, ◌++◌, length, map, take, drop, IfOk, OnOk, OnErr, IsErrOf, IsOkUnless};
ghost use Rattle.std.specs.List.{concat, flat_map};
ghost use Rattle.sha2.specs.Sha256.{sha256};
ghost use Rattle.spec_format.specs.Container.{container, end_entry, magic, payload};
ghost use Rattle.spec_format.specs.Number.{ends_from, spelled32};
ghost use Rattle.snap_blob.specs.Sections.{lists_of, sealed_length, zeros};

use crate::put::put32;
use sha2::{Digest, Sha256};
use snap_base::MOST_BLOB_BYTES;
use std::alloc::{AllocError, Global};

/// Why sections were not sealed.
#[derive(Clone, Copy, Debug, PartialEq, Eq)]
pub enum SealFault {
    /// The blob would have more than `MOST_BLOB_BYTES`.
    TooLong,
    /// Memory ran out.
    NoMemory,
}

/// The blob of these sections. Memory is taken once, for the whole blob, and none where it would be
/// too long.
pub fn seal(alloc: Global, format: u32, sections: &[Vec<u8>]) -> Result<Vec<u8>, SealFault>
    requires least { 4 ≤ length sections.now }
    requires most { length sections.now ≤ 19 }
    ensures ok { IfOk result (λ blob. blob.items ≡ container format (lists_of sections.now)) }
    ensures fits { IfOk result (λ blob. length blob.items ≤ MOST_BLOB_BYTES) }
    ensures too_long { IsErrOf result SealFault.TooLong → MOST_BLOB_BYTES < length (container format (lists_of sections.now)) }
    ensures always_too_long { MOST_BLOB_BYTES < length (container format (lists_of sections.now)) → IsErrOf result SealFault.TooLong }
{
    let len = blob_length(sections)?;
    match write_blob(alloc, format, len, sections) {
        Ok(blob) => Ok(blob),
        Err(_) => Err(SealFault::NoMemory),
    }
}

// How long the blob is. The fault is `TooLong` where it would be.
fn blob_length(sections: &[Vec<u8>]) -> Result<u32, SealFault>
    requires { length sections.now ≤ 19 }
    ensures ok { IfOk result (λ n. (n ≤ MOST_BLOB_BYTES) × (n ≡ sealed_length (lists_of sections.now))) }
    ensures err { OnErr result (MOST_BLOB_BYTES < sealed_length (lists_of sections.now)) }
    ensures only { IsOkUnless result SealFault.TooLong }
{
    let mut total = 52 + 4 * sections.len();
    for section in sections {
        if section.len() > MOST_BLOB_BYTES as usize - total {
            return Err(SealFault::TooLong);
        }
        total += section.len();
    }
    Ok(total as u32)
}

// The blob, which has this length.
fn write_blob(
    alloc: Global,
    format: u32,
    len: u32,
    sections: &[Vec<u8>],
) -> Result<Vec<u8>, AllocError>
    requires count { length sections.now ≤ 19 }
    requires short { len ≤ MOST_BLOB_BYTES }
    requires len { len ≡ sealed_length (lists_of sections.now) }
    ensures bytes { IfOk result (λ blob. blob.items ≡ container format (lists_of sections.now)) }
    ensures fits { IfOk result (λ blob. length blob.items ≤ MOST_BLOB_BYTES) }
{
    let mut blob = Vec::with_capacity(alloc, len as usize)?;
    put_header(&mut blob, format, len)?;
    put_payload(&mut blob, sections)?;
    fill_digest(blob.as_mut_slice());
    Ok(blob)
}

// What stands before the payload, with zeros for the digest.
fn put_header(blob: &mut Vec<u8>, format: u32, len: u32) -> Result<(), AllocError>
    ensures { OnOk result (blob.new.items ≡ blob.old.items ++ (magic ++ spelled32 format ++ spelled32 len ++ zeros)) }
{
    blob.extend_from_slice(b"SNAPBLOB")?;
    put32(blob, format)?;
    put32(blob, len)?;
    blob.extend_from_slice(&[0; 32])?;
    Ok(())
}

fn put_payload(blob: &mut Vec<u8>, sections: &[Vec<u8>]) -> Result<(), AllocError>
    requires count { length sections.now ≤ 19 }
    requires fits { sealed_length (lists_of sections.now) ≤ MOST_BLOB_BYTES }
    ensures { OnOk result (blob.new.items ≡ blob.old.items ++ payload (lists_of sections.now)) }
{
    put32(blob, sections.len() as u32)?;
    put_section_ends(blob, sections)?;
    put_sections(blob, sections)?;
    Ok(())
}

// Where each section ends.
fn put_section_ends(blob: &mut Vec<u8>, sections: &[Vec<u8>]) -> Result<(), AllocError>
    requires count { length sections.now ≤ 19 }
    requires fits { sealed_length (lists_of sections.now) ≤ MOST_BLOB_BYTES }
    ensures { OnOk result (blob.new.items
        ≡ blob.old.items ++ flat_map spelled32 (ends_from (end_entry (length sections.now)) (lists_of sections.now))) }
{
    let mut end = 52 + 4 * sections.len();
    for section in sections {
        end += section.len();
        put32(blob, end as u32)?;
    }
    Ok(())
}

// The sections, one behind the other.
fn put_sections(blob: &mut Vec<u8>, sections: &[Vec<u8>]) -> Result<(), AllocError>
    ensures { OnOk result (blob.new.items ≡ blob.old.items ++ concat (lists_of sections.now)) }
{
    for section in sections {
        blob.extend_from_slice(section.as_slice())?;
    }
    Ok(())
}

// Writes the digest of what stands behind the header into the header.
fn fill_digest(blob: &mut [u8])
    requires { 48 ≤ length blob.old }
    ensures { blob.new ≡ take 16 blob.old ++ sha256 (drop 48 blob.old) ++ drop 48 blob.old }
{
    let digest = Sha256::digest(&blob[48..]);
    blob[16..48].copy_from_slice(&digest);
}
