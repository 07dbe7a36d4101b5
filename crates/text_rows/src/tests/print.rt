//! Texts as UTF-8.

use snap_text::{NoMemory, Units, print_utf8};
use std::alloc::Global;
use std::test::Fail;

/// Texts, and Unicode's UTF-8 forms of them, with EF BF BD for a surrogate without its partner.
const PRINTED: [(&[u16], &[u8]); 20] = [
    (&[], &[]),
    (&[0], &[0]),
    (&[0x7F], &[0x7F]),
    (&[0x80], &[0xC2, 0x80]),
    (&[0x7FF], &[0xDF, 0xBF]),
    (&[0x800], &[0xE0, 0xA0, 0x80]),
    (&[0xFFFF], &[0xEF, 0xBF, 0xBF]),
    (&[0xD7FF], &[0xED, 0x9F, 0xBF]),
    (&[0xE000], &[0xEE, 0x80, 0x80]),
    (&[0xD83D, 0xDE00], &[0xF0, 0x9F, 0x98, 0x80]),
    (&[0xD800, 0xDC00], &[0xF0, 0x90, 0x80, 0x80]),
    (&[0xDBFF, 0xDFFF], &[0xF4, 0x8F, 0xBF, 0xBF]),
    (&[0x61, 0xD83D], &[0x61, 0xEF, 0xBF, 0xBD]),
    (&[0xD83D, 0x61], &[0xEF, 0xBF, 0xBD, 0x61]),
    (&[0xDE00], &[0xEF, 0xBF, 0xBD]),
    (&[0xDE00, 0x61], &[0xEF, 0xBF, 0xBD, 0x61]),
    (&[0xDE00, 0xD83D], &[0xEF, 0xBF, 0xBD, 0xEF, 0xBF, 0xBD]),
    (
        &[0xD83D, 0xD83D, 0xDE00],
        &[0xEF, 0xBF, 0xBD, 0xF0, 0x9F, 0x98, 0x80],
    ),
    (&[0xD83D, 0x80], &[0xEF, 0xBF, 0xBD, 0xC2, 0x80]),
    (
        &[0x61, 0xE9, 0x20AC, 0xD83D, 0xDE00, 0x62],
        b"a\xC3\xA9\xE2\x82\xAC\xF0\x9F\x98\x80b",
    ),
];

/// Whether these bytes are put behind what stands there already.
fn is_printed(alloc: Global, units: &[u16], bytes: &[u8]) -> Result<bool, NoMemory> {
    let text = Units::of(alloc, units)?;
    let mut out = Vec::from_slice(alloc, b">")?;
    print_utf8(&text, &mut out)?;
    Ok(out.as_slice().strip_prefix(b">".as_slice()) == Some(bytes))
}

/// The first text that is printed otherwise.
fn first_misprinted(alloc: Global) -> Result<Option<usize>, NoMemory> {
    for (row, (units, bytes)) in PRINTED.iter().enumerate() {
        if !is_printed(alloc, units, bytes)? {
            return Ok(Some(row));
        }
    }
    Ok(None)
}

#[test]
fn prints_characters(rt: HostRuntime) -> Result<(), Fail> {
    assert_eq!(rt; first_misprinted(rt.alloc())?, None);
    Ok(())
}

// A refused allocation leaves the bytes as they were.
#[test]
fn keeps_bytes_on_want_of_memory(rt: HostRuntime) -> Result<(), Fail> {
    let text = Units::of(rt.alloc(), &[0x61, 0x20AC, 0x20AC, 0x20AC, 0x20AC])?;
    let mut out = vec![in rt.alloc(); b'>']?;
    match print_utf8(&text, &mut out) {
        Ok(()) => assert_eq!(rt; out.len(), 14),
        Err(NoMemory) => assert_eq!(rt; out.as_slice(), b">".as_slice()),
    }
    Ok(())
}
