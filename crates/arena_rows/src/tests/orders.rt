//! Texts joined and cut in many orders, and each of them read again.

use super::shelf::Shelf;
use snap_arena::JoinFault;
use snap_text::NoMemory;
use std::alloc::Global;
use std::test::Fail;

/// How many texts come to stand beside each other, one after another.
const STEPS: u32 = 200;

/// No text of the steps is longer.
const LONGEST: usize = 3_000;

/// One more text: two joined where the choice says so and the two are not too long together, or else a part of one.
fn step(shelf: &mut Shelf, choice: u32) -> Result<(), JoinFault> {
    let count = shelf.len().max(1);
    let left = (choice & 0xFFF) as usize % count;
    let right = (choice >> 12) as usize % count;
    if choice % 3 != 0 && shelf.length(left).saturating_add(shelf.length(right)) <= LONGEST {
        shelf.join(left, right)
    } else {
        shelf.part(left, choice >> 4 & 7, choice >> 7)?;
        Ok(())
    }
}

/// The first step behind which some text is not what it was.
fn first_changed(alloc: Global, first: u32) -> Result<Option<u32>, JoinFault> {
    let mut shelf = Shelf::new(alloc);
    shelf.hold(&[0x61, 0x62, 0x63, 0xD83D, 0xDE00])?;
    shelf.hold(&[])?;
    shelf.hold(&[0x7A])?;
    let mut choice = first;
    for number in 0..STEPS {
        choice = choice.wrapping_mul(1_664_525).wrapping_add(1_013_904_223);
        step(&mut shelf, choice >> 8)?;
        if !shelf.is_right() {
            return Ok(Some(number));
        }
    }
    Ok(None)
}

#[test]
fn keeps_each_text(rt: HostRuntime) -> Result<(), Fail> {
    for first in 0..4 {
        assert_eq!(rt; first_changed(rt.alloc(), first)?, None);
    }
    Ok(())
}

/// A text that is joined with itself so often that it has as many units as a text may have, and one of one unit.
fn longest(alloc: Global) -> Result<Shelf, JoinFault> {
    let mut shelf = Shelf::new(alloc);
    shelf.hold(&[0x61; 1024])?;
    for number in 0..14 {
        shelf.join(number, number)?;
    }
    shelf.hold(&[0x62])?;
    Ok(shelf)
}

#[test]
fn joins_no_text_that_is_too_long(rt: HostRuntime) -> Result<(), Fail> {
    let mut shelf = longest(rt.alloc())?;
    assert_eq!(rt; shelf.length(14), 16_777_216);
    assert!(rt; shelf.join(14, 15) == Err(JoinFault::TooLong));
    assert!(rt; shelf.join(15, 14) == Err(JoinFault::TooLong));
    assert!(rt; shelf.join(14, 0) == Err(JoinFault::TooLong));
    assert_eq!(rt; shelf.len(), 16);
    assert!(rt; shelf.is_right());
    shelf.part(14, 1, 16_777_216)?;
    shelf.join(16, 15)?;
    assert_eq!(rt; shelf.length(17), 16_777_216);
    assert!(rt; shelf.is_right());
    Ok(())
}
