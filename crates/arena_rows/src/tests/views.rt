//! Views of one byte a unit beside views of units.

use snap_arena::TextView;
use snap_text::NoMemory;
use std::alloc::Global;
use std::cmp::Ordering;
use std::test::Fail;

/// Texts in their order, each as bytes and as units.
const ORDERED: [(&[u8], &[u16]); 8] = [
    (&[], &[]),
    (&[0], &[0]),
    (&[0x61], &[0x61]),
    (&[0x61, 0], &[0x61, 0]),
    (&[0x61, 0x62, 0x63], &[0x61, 0x62, 0x63]),
    (&[0x62], &[0x62]),
    (&[0xFF], &[0xFF]),
    (&[0xFF, 0x61], &[0xFF, 0x61]),
];

/// Whether two views stand to each other as their places say.
fn stand(left: &TextView, right: &TextView, order: Ordering) -> bool {
    left.order(right) == order
        && right.order(left) == order.reverse()
        && left.same(right) == order.is_eq()
        && right.same(left) == order.is_eq()
}

/// Whether the texts of two rows stand so, whichever way they are viewed.
fn all_stand(one: (&[u8], &[u16]), other: (&[u8], &[u16]), order: Ordering) -> bool {
    stand(&TextView::Narrow(one.0), &TextView::Narrow(other.0), order)
        && stand(&TextView::Narrow(one.0), &TextView::Wide(other.1), order)
        && stand(&TextView::Wide(one.1), &TextView::Narrow(other.0), order)
        && stand(&TextView::Wide(one.1), &TextView::Wide(other.1), order)
}

/// The first two rows that do not.
fn first_misordered() -> Option<(usize, usize)> {
    for (i, one) in ORDERED.iter().enumerate() {
        for (j, other) in ORDERED.iter().enumerate() {
            if !all_stand(*one, *other, i.cmp(&j)) {
                return Some((i, j));
            }
        }
    }
    None
}

#[test]
fn orders_views(rt: HostRuntime) {
    assert_eq!(rt; first_misordered(), None);
    let narrow = TextView::Narrow(&[0xFF]);
    assert!(rt; narrow.order(&TextView::Wide(&[0x100])).is_lt());
    assert!(rt; !narrow.same(&TextView::Wide(&[0x1FF])));
    assert!(rt;
        TextView::Wide(&[0xFFFF])
            .order(&TextView::Wide(&[0xD83D, 0xDE00]))
            .is_gt()
    );
    assert_eq!(rt; narrow.unit(0), Some(0xFF));
    assert!(rt; narrow.unit(1).is_none());
    assert!(rt; TextView::Narrow(&[]).is_empty() && TextView::Wide(&[]).is_empty());
}

/// Views, the units of each, and its UTF-8 form.
const PRINTED: [(TextView<'static>, &[u16], &[u8]); 7] = [
    (TextView::Narrow(&[]), &[], &[]),
    (
        TextView::Narrow(&[0x61, 0x7F]),
        &[0x61, 0x7F],
        &[0x61, 0x7F],
    ),
    (
        TextView::Narrow(&[0x80, 0xE9, 0xFF]),
        &[0x80, 0xE9, 0xFF],
        &[0xC2, 0x80, 0xC3, 0xA9, 0xC3, 0xBF],
    ),
    (TextView::Wide(&[]), &[], &[]),
    (
        TextView::Wide(&[0x61, 0xE9, 0x20AC]),
        &[0x61, 0xE9, 0x20AC],
        &[0x61, 0xC3, 0xA9, 0xE2, 0x82, 0xAC],
    ),
    (
        TextView::Wide(&[0xD83D, 0xDE00]),
        &[0xD83D, 0xDE00],
        &[0xF0, 0x9F, 0x98, 0x80],
    ),
    (
        TextView::Wide(&[0xDE00, 0xD83D]),
        &[0xDE00, 0xD83D],
        &[0xEF, 0xBF, 0xBD, 0xEF, 0xBF, 0xBD],
    ),
];

/// Whether a view is printed behind other bytes, and copied twice, as it must be.
fn is_copied(
    alloc: Global,
    view: &TextView,
    units: &[u16],
    bytes: &[u8],
) -> Result<bool, NoMemory> {
    let mut out = Vec::from_slice(alloc, &[0x2D])?;
    view.print(&mut out)?;
    let mut wanted = Vec::from_slice(alloc, &[0x2D])?;
    wanted.extend_from_slice(bytes)?;
    let text = view.copy(alloc)?;
    let mut list = Vec::from_slice(alloc, &[7, 8])?;
    view.copy_into(&mut list)?;
    Ok(out.as_slice() == wanted.as_slice() && text.units() == units && list.as_slice() == units)
}

/// The first view that is not.
fn first_miscopied(alloc: Global) -> Result<Option<usize>, NoMemory> {
    for (row, (view, units, bytes)) in PRINTED.iter().enumerate() {
        if !is_copied(alloc, view, units, bytes)? {
            return Ok(Some(row));
        }
    }
    Ok(None)
}

#[test]
fn prints_and_copies(rt: HostRuntime) -> Result<(), Fail> {
    assert_eq!(rt; first_miscopied(rt.alloc())?, None);
    Ok(())
}

/// Whether a list keeps its room while views are copied into it that fit.
fn keeps_room(list: &mut Vec<u16>) -> Result<bool, NoMemory> {
    let room = list.capacity();
    for (bytes, units) in ORDERED {
        TextView::Narrow(bytes).copy_into(list)?;
        TextView::Wide(units).copy_into(list)?;
    }
    Ok(list.capacity() == room && list.as_slice() == [0xFF, 0x61].as_slice())
}

#[test]
fn copies_into_room(rt: HostRuntime) -> Result<(), Fail> {
    let mut list = Vec::with_capacity(rt.alloc(), 3)?;
    list.extend_from_slice(&[1, 2, 3])?;
    assert!(rt; keeps_room(&mut list)?);
    Ok(())
}
