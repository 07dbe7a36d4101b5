//! Texts in a blob.

use snap_text::{NoMemory, StrView, Units};
use std::alloc::Global;
use std::test::Fail;

#[test]
fn reads_units(rt: HostRuntime) {
    let one = StrView::One(&[0x61, 0, 0xFF]);
    assert_eq!(rt; one.len(), 3);
    assert_eq!(rt; one.unit(2), 255);
    let two = StrView::Two(&[0x61, 0, 0x34, 0x12]);
    assert_eq!(rt; two.len(), 2);
    assert_eq!(rt; two.unit(0), 97);
    assert_eq!(rt; two.unit(1), 0x1234);
    assert!(rt; StrView::One(&[]).is_empty());
}

/// Views, a text beside each, and whether the two are the same.
const VIEWED: [(StrView<'static>, &[u16], bool); 12] = [
    (StrView::One(&[]), &[], true),
    (StrView::Two(&[]), &[], true),
    (StrView::One(&[0x61, 0xFF]), &[0x61, 0xFF], true),
    (StrView::One(&[0x61, 0xFF]), &[0x61], false),
    (StrView::One(&[0x61, 0xFF]), &[0x61, 0xFF, 0], false),
    (StrView::One(&[0x61, 0xFF]), &[0x61, 0xFE], false),
    (StrView::Two(&[0x61, 0, 0x34, 0x12]), &[0x61, 0x1234], true),
    (StrView::Two(&[0x61, 0, 0x34, 0x12]), &[0x61], false),
    (
        StrView::Two(&[0x61, 0, 0x34, 0x12]),
        &[0x61, 0x1234, 0],
        false,
    ),
    (StrView::Two(&[0x61, 0, 0x34, 0x12]), &[0x61, 0x34], false),
    (StrView::Two(&[0x61, 0, 0x34, 0x12]), &[0x61, 0x3412], false),
    (StrView::Two(&[0x61, 0, 0x62]), &[0x61], true),
];

/// Whether a view and its copy are told the same as a text or not.
fn is_compared(alloc: Global, view: &StrView, units: &[u16], same: bool) -> Result<bool, NoMemory> {
    let text = Units::of(alloc, units)?;
    let copy = view.copy(alloc)?;
    Ok(view.same(&text) == same && view.same(&copy) && (copy.units() == units) == same)
}

/// The first view that is not.
fn first_miscompared(alloc: Global) -> Result<Option<usize>, NoMemory> {
    for (row, (view, units, same)) in VIEWED.iter().enumerate() {
        if !is_compared(alloc, view, units, *same)? {
            return Ok(Some(row));
        }
    }
    Ok(None)
}

#[test]
fn compares_and_copies(rt: HostRuntime) -> Result<(), Fail> {
    assert_eq!(rt; first_miscompared(rt.alloc())?, None);
    Ok(())
}
