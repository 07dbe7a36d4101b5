//! Keys that are given to texts.

use snap_text::{Key, Keys, NoMemory, OwnKeys, Units};
use std::alloc::Global;
use std::test::Fail;

/// The texts that are asked for, each with its number.
const ASKED: [(&[u16], u32); 8] = [
    (&[0x61], 0),
    (&[], 1),
    (&[0x61], 0),
    (&[0x61, 0], 2),
    (&[0xFFFF], 3),
    (&[0], 4),
    (&[], 1),
    (&[0x61, 0], 2),
];

/// Whether a text is given this number, its key gives the text back, and no other text is taken for it.
fn is_numbered(
    alloc: Global,
    keys: &mut OwnKeys,
    units: &[u16],
    number: u32,
) -> Result<bool, NoMemory> {
    let text = Units::of(alloc, units)?;
    let key = keys.key(&text)?;
    for (other, place) in ASKED {
        if keys.same(key, other) != (place == number) {
            return Ok(false);
        }
    }
    let again = keys.text(key)?;
    Ok(key == Key::Local(number) && again.units() == units)
}

/// The first text that is not.
fn first_misnumbered(alloc: Global) -> Result<Option<usize>, NoMemory> {
    let mut keys = OwnKeys::new(alloc);
    for (row, (units, number)) in ASKED.iter().enumerate() {
        if !is_numbered(alloc, &mut keys, units, *number)? {
            return Ok(Some(row));
        }
    }
    Ok(None)
}

#[test]
fn numbers_texts(rt: HostRuntime) -> Result<(), Fail> {
    assert_eq!(rt; first_misnumbered(rt.alloc())?, None);
    Ok(())
}

/// Whether each of 20,000 texts is given its number.
fn are_all_numbered(alloc: Global, keys: &mut OwnKeys) -> Result<bool, NoMemory> {
    for n in 0..20_000u32 {
        let text = Units::of(alloc, &[(n % 256) as u16, (n / 256) as u16])?;
        if keys.key(&text)? != Key::Local(n) {
            return Ok(false);
        }
    }
    Ok(true)
}

// A text that was asked for before is found at once, also among many.
#[test]
fn finds_one_among_many(rt: HostRuntime) -> Result<(), Fail> {
    let mut keys = OwnKeys::new(rt.alloc());
    assert!(rt; are_all_numbered(rt.alloc(), &mut keys)?, "at first");
    assert!(rt; are_all_numbered(rt.alloc(), &mut keys)?, "again");
    Ok(())
}

// What every type with keys promises, called through the bound.
fn keeps_its_texts<K: Keys>(alloc: Global, keys: &mut K) -> Result<bool, NoMemory> {
    let one = Units::of(alloc, &[0x61])?;
    let other = Units::of(alloc, &[0x62])?;
    let key = keys.key(&one)?;
    let apart = keys.key(&other)? != key;
    let text = keys.text(key)?;
    Ok(apart && keys.same(key, text.units()) && keys.same(key, one.units()))
}

#[test]
fn serves_through_the_bound(rt: HostRuntime) -> Result<(), Fail> {
    let mut keys = OwnKeys::new(rt.alloc());
    assert!(rt; keeps_its_texts(rt.alloc(), &mut keys)?);
    Ok(())
}
