//! Numbers as texts.

use snap_text::{NoMemory, decimal};
use std::alloc::Global;
use std::test::Fail;

/// Numbers, and their digits.
const NUMBERS: [(i64, &[u8]); 6] = [
    (0, b"0"),
    (-1, b"-1"),
    (9_007_199_254_740_991, b"9007199254740991"),
    (-9_007_199_254_740_991, b"-9007199254740991"),
    (i64::MIN, b"-9223372036854775808"),
    (i64::MAX, b"9223372036854775807"),
];

/// Whether these units are these bytes.
fn are_bytes(units: &[u16], bytes: &[u8]) -> bool {
    if units.len() != bytes.len() {
        return false;
    }
    for (unit, byte) in units.iter().zip(bytes) {
        if *unit != u16::from(*byte) {
            return false;
        }
    }
    true
}

/// The first number that is printed otherwise.
fn first_misprinted(alloc: Global) -> Result<Option<usize>, NoMemory> {
    for (row, (n, digits)) in NUMBERS.iter().enumerate() {
        if !are_bytes(decimal(alloc, *n)?.units(), digits) {
            return Ok(Some(row));
        }
    }
    Ok(None)
}

#[test]
fn prints_numbers(rt: HostRuntime) -> Result<(), Fail> {
    assert_eq!(rt; first_misprinted(rt.alloc())?, None);
    Ok(())
}
