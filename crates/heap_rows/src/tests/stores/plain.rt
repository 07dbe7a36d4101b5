//! The plain store.

use super::*;
use heap_words::is_refused;
use snap_store::{PlainStore, StoreFault, intrinsics};
use snap_text::OwnKeys;
use std::test::Fail;

const A: &[u16] = &[0x61];

const B: &[u16] = &[0x62];

const C: &[u16] = &[0x63];

const NINE: &[u16] = &[0x39];

const TEN: &[u16] = &[0x31, 0x30];

/// A store of the intrinsics alone.
pub(super) fn plain(alloc: Global) -> Result<PlainStore<OwnKeys>, Refused> {
    Ok(PlainStore::new(alloc, OwnKeys::new(alloc))?)
}

/// Calls on the properties of a plain object, and what they answer.
const PROPERTIES: [(Step<'static>, Option<i64>); 16] = [
    (Step::Put(A, 1), Some(1)),
    (Step::Put(TEN, 2), Some(1)),
    (Step::Put(B, 3), Some(1)),
    (Step::Put(NINE, 4), Some(1)),
    (Step::Put(C, 5), Some(1)),
    (Step::Put(A, 6), Some(1)),
    (Step::Remove(B), Some(1)),
    (Step::Remove(B), Some(0)),
    (Step::Read(B), None),
    (Step::Put(B, 7), Some(1)),
    (Step::Read(A), Some(6)),
    (Step::Read(B), Some(7)),
    (Step::Read(TEN), Some(2)),
    (Step::Push(1), Some(0)),
    (Step::Freeze, None),
    (Step::Put(A, 8), Some(0)),
];

/// The keys that the object has then, in order.
const KEYS: [&[u16]; 5] = [NINE, TEN, A, C, B];

/// The first of the calls that answers otherwise, and whether the keys are in order then.
fn properties_kept<S: Store>(
    alloc: Global,
    store: &mut S,
) -> Result<(Option<usize>, bool), Refused> {
    let node = made(store, Kind::Plain)?;
    let wrong = played(alloc, store, node, &PROPERTIES)?;
    let in_order = has_keys(store, node, &KEYS)?;
    Ok((wrong, in_order))
}

/// Whether all of them answer so, and the keys are in order then.
pub(super) fn properties_hold<S: Store>(alloc: Global, store: &mut S) -> Result<bool, Refused> {
    Ok(properties_kept(alloc, store)? == (None, true))
}

// The order of own keys is that of Node.js: indices ascend, a key that is written stays, and one that is removed
// and created again goes last.
#[test]
fn keeps_properties(rt: HostRuntime) -> Result<(), Fail> {
    assert!(rt; holds_plain(rt.alloc(), Case::Properties)?);
    Ok(())
}

/// Calls on the elements of an array, and what they answer.
const ELEMENTS: [(Step<'static>, Option<i64>); 12] = [
    (Step::Pop, None),
    (Step::Push(1), Some(1)),
    (Step::Push(2), Some(1)),
    (Step::Write(0, 3), Some(1)),
    (Step::Element(0), Some(3)),
    (Step::Element(1), Some(2)),
    (Step::Pop, Some(2)),
    (Step::Element(1), None),
    (Step::Freeze, None),
    (Step::Push(4), Some(0)),
    (Step::Write(0, 4), Some(0)),
    (Step::Element(0), Some(3)),
];

/// Whether all of them answer so.
pub(super) fn elements_hold<S: Store>(alloc: Global, store: &mut S) -> Result<bool, Refused> {
    Ok(played_anew(alloc, store, Kind::Array, &ELEMENTS)? == None)
}

#[test]
fn keeps_elements(rt: HostRuntime) -> Result<(), Fail> {
    assert!(rt; holds_plain(rt.alloc(), Case::Elements)?);
    Ok(())
}

/// A resource that is open, and the same closed.
const OPEN: Kind = Kind::Resource {
    number: 5,
    closed: false,
};

const SHUT: Kind = Kind::Resource {
    number: 5,
    closed: true,
};

/// What a resource is before it is closed and then, and the number that its prototype is.
fn marks<S: Store>(store: &mut S) -> Result<(Kind, Kind, Option<i64>), Refused> {
    let node = made(store, OPEN)?;
    let before = store.kind(node);
    closed(store, node);
    let prototype = prototype(store, node)?;
    Ok((before, store.kind(node), number(Some(prototype))))
}

/// Whether they are what they should be.
pub(super) fn marks_hold<S: Store>(store: &mut S) -> Result<bool, Refused> {
    Ok(marks(store)? == (OPEN, SHUT, None))
}

#[test]
fn keeps_marks(rt: HostRuntime) -> Result<(), Fail> {
    assert!(rt; holds_plain(rt.alloc(), Case::Marks)?);
    Ok(())
}

/// How many intrinsics there are.
fn count_of_intrinsics(alloc: Global) -> Result<usize, Refused> {
    Ok(intrinsics(alloc)?.nodes.as_slice().len())
}

/// How many nodes are private in a store of another one's graph, of which so many are to be.
fn private_nodes_of_graph(alloc: Global, private_nodes: u32) -> Result<u32, Refused> {
    let store = plain(alloc)?;
    let graph = store.graph()?;
    match PlainStore::of(alloc, store.into_keys(), graph, private_nodes) {
        Ok(store) => Ok(store.private_nodes()),
        Err(_) => Err(Refused::NoMemory),
    }
}

// A graph goes into a store and comes out of it.
#[test]
fn keeps_graphs(rt: HostRuntime) -> Result<(), Fail> {
    assert_eq!(rt; count_of_intrinsics(rt.alloc())?, 62);
    assert_eq!(rt; private_nodes_of_graph(rt.alloc(), 7)?, 7);
    Ok(())
}

/// Makes so many plain objects.
fn made_often<S: Store>(store: &mut S, count: u32) -> Result<(), Refused> {
    for _turn in 0..count {
        made(store, Kind::Plain)?;
    }
    Ok(())
}

/// Whether so many nodes may be private, and no more.
pub(super) fn many_nodes_hold<S: Store>(store: &mut S) -> Result<bool, Refused> {
    made_often(store, 1_048_576)?;
    let count = store.private_nodes();
    let another = made(store, Kind::Plain);
    Ok(count == 1_048_576 && is_refused(another, StoreFault::TooManyNodes)?)
}

#[test]
fn has_room_for_nodes(rt: HostRuntime) -> Result<(), Fail> {
    assert!(rt; holds_plain(rt.alloc(), Case::ManyNodes)?);
    Ok(())
}

/// Whether an array may have so many elements, and no more.
pub(super) fn many_elements_hold<S: Store>(store: &mut S) -> Result<bool, Refused> {
    let node = made(store, Kind::Array)?;
    let all = filled(store, node, 16_777_216)?;
    let count = store.count(node);
    let another = pushed(store, node, 0);
    Ok(all && count == 16_777_216 && is_refused(another, StoreFault::TooLong)?)
}

#[test]
fn has_room_for_elements(rt: HostRuntime) -> Result<(), Fail> {
    assert!(rt; holds_plain(rt.alloc(), Case::ManyElements)?);
    Ok(())
}
