//! Numbers written and read again, spellings that are refused, and fields at the end of the bytes.

use snap_bytes::{ByteFault, Cursor, put_varint};
use snap_text::NoMemory;
use std::alloc::Global;
use std::test::Fail;

/// Numbers, and the one spelling of each.
const WRITTEN: [(u64, &[u8]); 8] = [
    (0, &[0x00]),
    (127, &[0x7f]),
    (128, &[0x80, 0x01]),
    (300, &[0xac, 0x02]),
    (1 << 32, &[0x80, 0x80, 0x80, 0x80, 0x10]),
    (1 << 53, &[0x80, 0x80, 0x80, 0x80, 0x80, 0x80, 0x80, 0x10]),
    (
        1 << 63,
        &[0x80, 0x80, 0x80, 0x80, 0x80, 0x80, 0x80, 0x80, 0x80, 0x01],
    ),
    (
        u64::MAX,
        &[0xff, 0xff, 0xff, 0xff, 0xff, 0xff, 0xff, 0xff, 0xff, 0x01],
    ),
];

/// The spelling of a number, as it is written.
fn spelled(alloc: Global, n: u64) -> Result<Vec<u8>, NoMemory> {
    let mut bytes = Vec::new(alloc);
    match put_varint(&mut bytes, n) {
        Ok(()) => Ok(bytes),
        Err(_) => Err(NoMemory),
    }
}

/// Whether these bytes are read as this number, spelled in so many bytes, and two bytes behind it.
fn is_read(bytes: &[u8], n: u64, len: usize) -> bool {
    if bytes.len() >= 100 || len >= 100 {
        return false;
    }
    let mut cursor = Cursor::new(bytes, 100);
    let number = cursor.varint();
    let at = cursor.at() as usize;
    let behind = cursor.take(2);
    number == Ok(n) && at == 100 + len && behind == Ok([0x80, 7].as_slice()) && cursor.left() == 0
}

/// Whether a number has this spelling, and is read from it where other bytes follow.
fn is_read_again(alloc: Global, n: u64, spelling: &[u8]) -> Result<bool, NoMemory> {
    let mut bytes = spelled(alloc, n)?;
    let same = bytes.as_slice() == spelling;
    bytes.extend_from_slice(&[0x80, 7])?;
    Ok(same && is_read(&bytes, n, spelling.len()))
}

/// The first number that does not, or is not.
fn first_misread(alloc: Global) -> Result<Option<usize>, NoMemory> {
    for (row, (n, spelling)) in WRITTEN.iter().enumerate() {
        if !is_read_again(alloc, *n, spelling)? {
            return Ok(Some(row));
        }
    }
    Ok(None)
}

#[test]
fn numbers_are_read_again(rt: HostRuntime) -> Result<(), Fail> {
    assert_eq!(rt; first_misread(rt.alloc())?, None);
    Ok(())
}

/// Bytes from which no number is read, and the fault where the first of them stands at 5.
const REFUSED: [(&[u8], ByteFault); 9] = [
    (&[0x80, 0x00], ByteFault::BadNumber(5)),
    (&[0x81, 0x00], ByteFault::BadNumber(5)),
    (&[0x81, 0x80, 0x00, 0x80], ByteFault::BadNumber(5)),
    (
        &[0xff, 0xff, 0xff, 0xff, 0xff, 0xff, 0xff, 0xff, 0xff, 0x02],
        ByteFault::BadNumber(5),
    ),
    (
        &[
            0x80, 0x80, 0x80, 0x80, 0x80, 0x80, 0x80, 0x80, 0x80, 0x80, 0x01,
        ],
        ByteFault::BadNumber(5),
    ),
    (&[], ByteFault::Truncated(5)),
    (&[0x80], ByteFault::Truncated(5)),
    (&[0xff, 0xff], ByteFault::Truncated(5)),
    (
        &[
            0x80, 0x80, 0x80, 0x80, 0x80, 0x80, 0x80, 0x80, 0x80, 0x80, 0x80, 0x80,
        ],
        ByteFault::Truncated(5),
    ),
];

/// Whether no number is read of these bytes, for this fault, and the cursor stays where it was.
fn is_refused(bytes: &[u8], fault: ByteFault) -> bool {
    if bytes.len() >= 100 {
        return false;
    }
    let mut cursor = Cursor::new(bytes, 5);
    cursor.varint() == Err(fault) && cursor.at() == 5 && cursor.left() as usize == bytes.len()
}

/// The first spelling that is not.
fn first_accepted() -> Option<usize> {
    for (row, (bytes, fault)) in REFUSED.iter().enumerate() {
        if !is_refused(bytes, *fault) {
            return Some(row);
        }
    }
    None
}

#[test]
fn other_spellings_are_refused(rt: HostRuntime) {
    assert_eq!(rt; first_accepted(), None);
}

/// The first read that gives another answer than it should, of bytes that end.
fn first_wrong_read(cursor: &mut Cursor) -> Option<usize> {
    let right = [
        cursor.le32() == Ok(0x0403_0201),
        cursor.le64() == Ok(0x0c0b_0a09_0807_0605),
        cursor.le32() == Err(ByteFault::Truncated(12)),
        cursor.le64() == Err(ByteFault::Truncated(12)),
        cursor.take(2) == Err(ByteFault::Truncated(12)),
        cursor.at() == 12,
        cursor.take(1) == Ok([13].as_slice()),
        cursor.take(0) == Ok([].as_slice()),
        cursor.varint() == Err(ByteFault::Truncated(13)),
    ];
    for (read, is_right) in right.iter().enumerate() {
        if !*is_right {
            return Some(read);
        }
    }
    None
}

#[test]
fn fields_end_with_the_bytes(rt: HostRuntime) {
    let mut cursor = Cursor::new(&[1, 2, 3, 4, 5, 6, 7, 8, 9, 10, 11, 12, 13], 0);
    assert_eq!(rt; first_wrong_read(&mut cursor), None);
}
