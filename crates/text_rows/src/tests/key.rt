//! Texts with their keys.

use snap_text::{Key, NoMemory, Texts, Units};
use std::alloc::Global;
use std::test::Fail;

/// Two texts with their keys.
fn pairs(alloc: Global) -> Result<Vec<(Key, Units)>, NoMemory> {
    let mut pairs = Vec::new(alloc);
    pairs.push((Key::Shared(7), Units::of(alloc, &[0x61])?))?;
    pairs.push((Key::Ro(0), Units::of(alloc, &[])?))?;
    Ok(pairs)
}

/// Whether these are the two.
fn are_the_two(pairs: &[(Key, Units)]) -> bool {
    let [(first, text), (second, empty)] = pairs else {
        return false;
    };
    *first == Key::Shared(7)
        && text.units() == [0x61].as_slice()
        && *second == Key::Ro(0)
        && empty.units().is_empty()
}

#[test]
fn keeps_pairs(rt: HostRuntime) -> Result<(), Fail> {
    let texts = Texts::from_vec(pairs(rt.alloc())?);
    assert!(rt; are_the_two(texts.pairs()), "lent");
    assert!(rt; are_the_two(texts.into_vec().as_slice()), "taken");
    Ok(())
}
