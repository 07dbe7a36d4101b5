//! What the program prints over files in memory: the worked blobs, damaged ones, and an outside that
//! fails.

ghost use Rattle.std.specs.Prelude.{IfOk};
ghost use Rattle.snap_io.specs.NamedFile.{AreApart};

use sha2::{Digest, Sha256};
use snap_commands::{Fault, Outcome, snap_serial};
use snap_io::{HonestFiles, HonestSink, MemFiles, MemSink, NamedFile};
use std::alloc::{AllocError, Global};
use std::test::Fail;

mod builds;
mod runs;

/// A blob without a string, as the format's description spells it.
const BLOB_A: [u8; 100] = [
    0x53, 0x4E, 0x41, 0x50, 0x42, 0x4C, 0x4F, 0x42, 1, 0, 0, 0, 0x64, 0, 0, 0, 0xD0, 0xD8, 0x6B,
    0x79, 0xFD, 0xB7, 0x4D, 0x53, 0xB7, 0xBE, 0x1D, 0x34, 0xF8, 0x5D, 0xAB, 0xA8, 0xC9, 0xE0, 0x92,
    0xC0, 0xCE, 0x5C, 0xAF, 0x7E, 0xD2, 0x85, 0x8F, 0x11, 0xB3, 0x52, 0xDE, 0x92, 4, 0, 0, 0, 0x45,
    0, 0, 0, 0x4D, 0, 0, 0, 0x58, 0, 0, 0, 0x64, 0, 0, 0, 0, 0, 0, 0, 0, 0, 0, 0, 0, 0, 0, 0, 0, 0,
    0, 0, 0, 0, 0, 0, 1, 9, 0x10, 0, 7, 0, 0x20, 0, 0, 0, 0, 0,
];

/// Its sections: the externals, the read-only section, the startup section and one context.
const EXTERNALS: [u8; 1] = [0];

const READ_ONLY: [u8; 8] = [0; 8];

const STARTUP: [u8; 11] = [0; 11];

const CONTEXT: [u8; 12] = [1, 9, 0x10, 0, 7, 0, 0x20, 0, 0, 0, 0, 0];

fn number(n: usize) -> [u8; 4] {
    u32::try_from(n).unwrap_or(u32::MAX).to_le_bytes()
}

/// The container of some sections.
fn sealed(alloc: Global, sections: &[&[u8]]) -> Result<Vec<u8>, AllocError> {
    let mut payload = Vec::new(alloc);
    payload.extend_from_slice(&number(sections.len()))?;
    let mut end = sections.len().saturating_mul(4).saturating_add(52);
    for section in sections {
        end = end.saturating_add(section.len());
        payload.extend_from_slice(&number(end))?;
    }
    for section in sections {
        payload.extend_from_slice(section)?;
    }
    let mut blob = Vec::new(alloc);
    blob.extend_from_slice(b"SNAPBLOB\x01\0\0\0")?;
    blob.extend_from_slice(&number(payload.len().saturating_add(48)))?;
    blob.extend_from_slice(&Sha256::digest(payload.as_slice()))?;
    blob.extend_from_slice(payload.as_slice())?;
    Ok(blob)
}

fn words_of(alloc: Global, words: &[&str]) -> Result<Vec<String>, AllocError> {
    let mut all = Vec::new(alloc);
    for word in words {
        all.push(String::from_str(alloc, word)?)?;
    }
    Ok(all)
}

/// Files of which one is held.
fn one_file(alloc: Global, name: &str, bytes: &[u8]) -> Result<Vec<NamedFile>, AllocError>
    ensures { IfOk result (λ files. AreApart files.items) }
{
    let name = String::from_str(alloc, name)?;
    let bytes = Vec::from_slice(alloc, bytes)?;
    let mut files = Vec::new(alloc);
    files.push(NamedFile { name, bytes })?;
    Ok(files)
}

/// What these words come to, where nothing outside fails.
fn outcome_of(
    alloc: Global,
    words: &[&str],
    files: &mut HonestFiles,
    out: &mut HonestSink,
) -> Result<Outcome, AllocError> {
    let words = words_of(alloc, words)?;
    Ok(snap_serial(alloc, &words, files, out, 0))
}

/// What these words come to, where chosen calls fail.
fn failing_outcome_of(
    alloc: Global,
    words: &[&str],
    files: &mut MemFiles,
    out: &mut MemSink,
) -> Result<Outcome, AllocError> {
    let words = words_of(alloc, words)?;
    Ok(snap_serial(alloc, &words, files, out, 0))
}

/// Whether a call ended with this status, and with no fault exactly where that is 0.
fn ended(outcome: &Outcome, status: u8) -> bool {
    outcome.status == status && outcome.fault.is_none() == (status == 0)
}

/// Whether `verify` prints this line of these bytes, and ends with this status.
fn is_verified(alloc: Global, bytes: &[u8], line: &str, status: u8) -> Result<bool, AllocError> {
    let mut files = HonestFiles::new(alloc, one_file(alloc, "A", bytes)?);
    let mut out = HonestSink::new(alloc);
    let outcome = outcome_of(alloc, &["verify", "A"], &mut files, &mut out)?;
    Ok(out.written() == line.as_bytes() && ended(&outcome, status))
}

/// Sections, what is printed of a blob with them, and the status.
const WORKED: [(&[&[u8]], &str, u8); 3] = [
    (
        &[&EXTERNALS, &READ_ONLY, &STARTUP, &CONTEXT],
        "ok 0 strings\n",
        0,
    ),
    // A table of properties stands in the context.
    (
        &[
            &EXTERNALS,
            b"\x01\0\0\0\0\0\0\0\x01\0\0\0a",
            &STARTUP,
            b"\x01\x09\x10\0\x07\0\x21\x08\x30\x30\x30\x30\x31\0\0\x05\x02\x30\x30\x30\0\0\0\0",
        ],
        "not built\n",
        11,
    ),
    // A second context.
    (
        &[&EXTERNALS, &READ_ONLY, &STARTUP, &CONTEXT, &CONTEXT],
        "not built\n",
        11,
    ),
];

/// Whether a blob with these sections is told so.
fn is_blob_verified(
    alloc: Global,
    sections: &[&[u8]],
    line: &str,
    status: u8,
) -> Result<bool, AllocError> {
    let blob = sealed(alloc, sections)?;
    is_verified(alloc, &blob, line, status)
}

/// The first worked blob that is told otherwise.
fn first_worked_otherwise(alloc: Global) -> Result<Option<usize>, AllocError> {
    for (row, (sections, line, status)) in WORKED.iter().enumerate() {
        if !is_blob_verified(alloc, sections, line, *status)? {
            return Ok(Some(row));
        }
    }
    Ok(None)
}

/// Whether the first blob is sealed as the format's description spells it.
fn is_sealed_as_described(alloc: Global) -> Result<bool, AllocError> {
    let blob = sealed(alloc, &[&EXTERNALS, &READ_ONLY, &STARTUP, &CONTEXT])?;
    Ok(blob.as_slice() == BLOB_A.as_slice())
}

#[test]
fn worked_blobs(rt: HostRuntime) -> Result<(), Fail> {
    assert!(rt; is_sealed_as_described(rt.alloc())?, "sealed");
    assert_eq!(rt; first_worked_otherwise(rt.alloc())?, None);
    let line = "blob refused: TooShort at 0\n";
    assert!(rt; is_verified(rt.alloc(), &[], line, 5)?, "no bytes");
    Ok(())
}

/// Whether a front of the first blob is told as too short, or as of another length than it says.
fn is_front_refused(alloc: Global, front: &[u8]) -> Result<bool, AllocError> {
    let len = front.len();
    if len >= 52 {
        return is_verified(alloc, front, "blob refused: BadLength at 12\n", 5);
    }
    let line = format!(in alloc; "blob refused: TooShort at {len}\n")?;
    is_verified(alloc, front, line.as_str(), 5)
}

/// The length of the first one that is not.
fn first_front_accepted(alloc: Global) -> Result<Option<usize>, AllocError> {
    for len in 0..BLOB_A.len() {
        if !is_front_refused(alloc, &BLOB_A[..len])? {
            return Ok(Some(len));
        }
    }
    Ok(None)
}

#[test]
fn prefixes(rt: HostRuntime) -> Result<(), Fail> {
    assert_eq!(rt; first_front_accepted(rt.alloc())?, None);
    Ok(())
}

/// One byte of the first blob changed, and what is printed then; where the change is behind the
/// digest, the blob is sealed anew.
const CHANGED: [(usize, u8, &str, u8); 15] = [
    (0, b'T', "blob refused: BadMagic at 0\n", 5),
    (8, 2, "blob refused: BadVersion at 8\n", 5),
    (12, 0x65, "blob refused: BadLength at 12\n", 5),
    (16, 0, "blob refused: BadDigest at 16\n", 5),
    (48, 3, "blob refused: BadSections at 48\n", 5),
    (48, 20, "blob refused: BadSections at 48\n", 5),
    (48, 19, "blob refused: BadSections at 48\n", 5),
    (48, 5, "blob refused: BadSections at 52\n", 5),
    (52, 0x43, "blob refused: BadSections at 52\n", 5),
    (52, 0x65, "blob refused: BadSections at 52\n", 5),
    (56, 0x44, "blob refused: BadSections at 56\n", 5),
    (64, 0x63, "blob refused: BadSections at 64\n", 5),
    (68, 1, "not built\n", 11),
    (77, 1, "not built\n", 11),
    (88, 0, "not built\n", 11),
];

/// The first blob with this byte, sealed anew where the change is behind the digest.
fn changed(at: usize, byte: u8) -> [u8; 100] {
    let mut blob = BLOB_A;
    if at < blob.len() {
        blob[at] = byte;
    }
    if at >= 48 {
        let digest = Sha256::digest(&blob[48..]);
        blob[16..48].copy_from_slice(&digest);
    }
    blob
}

/// The first change of which something else is told.
fn first_change_told_otherwise(alloc: Global) -> Result<Option<usize>, AllocError> {
    for (row, (at, byte, line, status)) in CHANGED.iter().enumerate() {
        if !is_verified(alloc, &changed(*at, *byte), line, *status)? {
            return Ok(Some(row));
        }
    }
    Ok(None)
}

/// The first blob with a digest that is not of what follows it.
fn damaged() -> [u8; 100] {
    let mut blob = BLOB_A;
    blob[88] = 0;
    blob
}

#[test]
fn changed_bytes(rt: HostRuntime) -> Result<(), Fail> {
    assert_eq!(rt; first_change_told_otherwise(rt.alloc())?, None);
    let line = "blob refused: BadDigest at 16\n";
    assert!(rt; is_verified(rt.alloc(), &damaged(), line, 5)?);
    Ok(())
}

/// A read-only section, which begins at 69, and what is printed of a blob with it.
const SECTIONS: [(&[u8], &str, u8); 18] = [
    (
        b"\x02\0\0\0\0\0\0\0\x01\0\0\0\x02\0\0\0ab",
        "ok 2 strings\n",
        0,
    ),
    (
        b"\x02\0\0\0\0\0\0\0\x01\0\0\0\x02\0\0\0ba",
        "blob refused: BadString at 86\n",
        5,
    ),
    (
        b"\x03\0\0\0\0\0\0\0\x01\0\0\0\x02\0\0\0ab",
        "blob refused: Truncated at 85\n",
        5,
    ),
    (b"", "blob refused: Truncated at 69\n", 5),
    (b"\0\0\0", "blob refused: Truncated at 69\n", 5),
    (b"\0\0\0\0", "blob refused: Truncated at 73\n", 5),
    (b"\0\0\0\0\0\0\0", "blob refused: Truncated at 73\n", 5),
    (b"\x01\0\0\0\0\0\0\0", "blob refused: Truncated at 77\n", 5),
    (b"\0\0\0\0\x01\0\0\0", "not built\n", 11),
    (
        b"\x02\0\0\0\0\0\0\0\x02\0\0\0\x01\0\0\0ab",
        "blob refused: BadString at 81\n",
        5,
    ),
    (
        b"\x01\0\0\0\0\0\0\0\x01\0\0\x01",
        "blob refused: BadString at 77\n",
        5,
    ),
    (
        b"\x01\0\0\0\0\0\0\0\0\0\0\x01",
        "blob refused: Truncated at 81\n",
        5,
    ),
    (
        b"\x02\0\0\0\0\0\0\0\x01\0\0\0\x02\0\0\0aa",
        "blob refused: BadString at 86\n",
        5,
    ),
    (
        b"\x02\0\0\0\0\0\0\0\0\0\0\0\0\0\0\0",
        "blob refused: BadString at 85\n",
        5,
    ),
    (
        b"\x02\0\0\0\0\0\0\0\0\0\0\0\x01\0\0\0a",
        "ok 2 strings\n",
        0,
    ),
    (
        b"\x02\0\0\0\0\0\0\0\x01\0\0\0\x02\0\0\0a",
        "blob refused: Truncated at 86\n",
        5,
    ),
    (
        b"\x02\0\0\0\0\0\0\0\x01\0\0\0\x02\0\0\0abx",
        "blob refused: Trailing at 87\n",
        5,
    ),
    (
        b"\x02\0\0\0\0\0\0\0\x01\0\0\0\x03\0\0\0a\xFFb",
        "ok 2 strings\n",
        0,
    ),
];

/// The first of them of which something else is printed.
fn first_section_told_otherwise(alloc: Global) -> Result<Option<usize>, AllocError> {
    for (row, (section, line, status)) in SECTIONS.iter().enumerate() {
        let sections: [&[u8]; 4] = [&EXTERNALS, section, &STARTUP, &CONTEXT];
        if !is_blob_verified(alloc, &sections, line, *status)? {
            return Ok(Some(row));
        }
    }
    Ok(None)
}

#[test]
fn read_only_sections(rt: HostRuntime) -> Result<(), Fail> {
    assert_eq!(rt; first_section_told_otherwise(rt.alloc())?, None);
    Ok(())
}

/// Whether so many zeros are told so.
fn are_zeros_refused(alloc: Global, count: usize, line: &str) -> Result<bool, AllocError> {
    let bytes = vec![in alloc; 0u8; count]?;
    is_verified(alloc, &bytes, line, 5)
}

#[test]
fn one_byte_too_long(rt: HostRuntime) -> Result<(), Fail> {
    let line = "blob refused: TooLong at 67108864\n";
    assert!(rt;
        are_zeros_refused(rt.alloc(), 67_108_865, line)?,
        "too long"
    );
    let line = "blob refused: BadMagic at 0\n";
    assert!(rt; are_zeros_refused(rt.alloc(), 67_108_864, line)?, "longest");
    Ok(())
}

const REFUSED_WORDS: [&[&str]; 13] = [
    &[],
    &["verify"],
    &["verify", "A", "A"],
    &["inspect", "A"],
    &["Verify", "A"],
    &["verify", "--A"],
    &["verify", "A\n"],
    &["verify", "\u{E4}"],
    &["build"],
    &["build", "A", "A"],
    &["Build", "A"],
    &["build", "--A"],
    &["build", "A\n"],
];

/// Whether these words are told as such, and nothing is written.
fn are_words_refused(alloc: Global, words: &[&str]) -> Result<bool, AllocError> {
    let mut files = HonestFiles::new(alloc, one_file(alloc, "A", &BLOB_A)?);
    let mut out = HonestSink::new(alloc);
    let outcome = outcome_of(alloc, words, &mut files, &mut out)?;
    Ok(
        outcome.status == 2
            && outcome.fault == Some(Fault::Words)
            && out.written() == b"words refused\n".as_slice()
            && files.held("snapshot.blob").is_none(),
    )
}

/// The first words that are not.
fn first_words_accepted(alloc: Global) -> Result<Option<usize>, AllocError> {
    for (row, words) in REFUSED_WORDS.iter().enumerate() {
        if !are_words_refused(alloc, words)? {
            return Ok(Some(row));
        }
    }
    Ok(None)
}

#[test]
fn words(rt: HostRuntime) -> Result<(), Fail> {
    assert_eq!(rt; first_words_accepted(rt.alloc())?, None);
    Ok(())
}

/// A file of this name and these bytes, where these calls fail.
fn failing_files(
    alloc: Global,
    calls: &[u32],
    name: &str,
    bytes: &[u8],
) -> Result<MemFiles, AllocError> {
    let calls = Vec::from_slice(alloc, calls)?;
    let held = one_file(alloc, name, bytes)?;
    Ok(MemFiles::new(alloc, held, calls))
}

/// Whether these words print this line and end with this status over these files, where these calls of
/// the sink fail.
fn is_failure_told(
    alloc: Global,
    words: &[&str],
    files: &mut MemFiles,
    puts: &[u32],
    line: &str,
    status: u8,
) -> Result<bool, AllocError> {
    let mut out = MemSink::new(alloc, Vec::from_slice(alloc, puts)?);
    let outcome = failing_outcome_of(alloc, words, files, &mut out)?;
    Ok(outcome.status == status && out.written() == line.as_bytes())
}

/// How an outside that fails is told: the failing calls of the files and of the sink, the name that
/// is read, what is printed, and the status.
const FAILING: [(&[u32], &[u32], &str, &str, u8); 5] = [
    (&[], &[], "A", "ok 0 strings\n", 0),
    (&[0], &[], "A", "read failed: A\n", 6),
    (&[], &[], "B", "read failed: B\n", 6),
    (&[], &[0], "A", "", 7),
    (&[0], &[0], "A", "", 7),
];

/// The first of them that is told otherwise.
fn first_failure_told_otherwise(alloc: Global) -> Result<Option<usize>, AllocError> {
    for (row, (reads, puts, name, line, status)) in FAILING.iter().enumerate() {
        let mut files = failing_files(alloc, reads, "A", &BLOB_A)?;
        let told = is_failure_told(alloc, &["verify", name], &mut files, puts, line, *status)?;
        if !told || files.held("A") != Some(BLOB_A.as_slice()) {
            return Ok(Some(row));
        }
    }
    Ok(None)
}

#[test]
fn failing_calls(rt: HostRuntime) -> Result<(), Fail> {
    assert_eq!(rt; first_failure_told_otherwise(rt.alloc())?, None);
    Ok(())
}
