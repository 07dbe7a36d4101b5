//! Texts that grow by one unit again and again.

ghost use Rattle.snap_arena.specs.Texts.{IsHeld};
ghost use Rattle.std.specs.Prelude.{IfOk};

use snap_arena::{Arena, HeldText, JoinFault};
use std::test::Fail;

// Two texts that grow in turn, so many times each.
fn grow(
    arena: &mut Arena,
    unit: HeldText,
    other: HeldText,
    turns: u32,
) -> Result<(HeldText, HeldText), JoinFault>
    requires unit { IsHeld arena.old unit }
    requires other { IsHeld arena.old other }
    ensures left { IfOk result (λ texts. IsHeld arena.new texts.0) }
    ensures right { IfOk result (λ texts. IsHeld arena.new texts.1) }
{
    let mut left = unit;
    let mut right = other;
    for _ in 0..turns {
        left = arena.join(left, other)?;
        right = arena.join(right, unit)?;
    }
    Ok((left, right))
}

#[test]
fn grows_in_linear_time(rt: HostRuntime) -> Result<(), Fail> {
    let mut arena = Arena::new(rt.alloc());
    let unit = arena.hold(&[0x61])?;
    let other = arena.hold(&[0xD83D])?;
    let (left, right) = grow(&mut arena, unit, other, 1_000_000)?;
    let left = arena.view(left);
    let right = arena.view(right);
    assert_eq!(rt; left.len(), 1_000_001);
    assert_eq!(rt; right.len(), 1_000_001);
    assert_eq!(rt; left.unit(0), Some(0x61));
    assert_eq!(rt; left.unit(1_000_000), Some(0xD83D));
    assert_eq!(rt; right.unit(0), Some(0xD83D));
    assert_eq!(rt; right.unit(1), Some(0x61));
    assert_eq!(rt; right.unit(1_000_000), Some(0x61));
    assert!(rt; right.unit(1_000_001).is_none());
    Ok(())
}
