//! Texts of units.

use snap_text::Units;
use std::test::Fail;

#[test]
fn keeps_units(rt: HostRuntime) -> Result<(), Fail> {
    let text = Units::of(rt.alloc(), &[0x61, 0xD83D, 0])?;
    assert_eq!(rt; text.units(), [0x61, 0xD83D, 0].as_slice());
    let text = Units::from_vec(text.into_vec());
    assert_eq!(rt; text.into_vec().as_slice(), [0x61, 0xD83D, 0].as_slice());
    Ok(())
}
