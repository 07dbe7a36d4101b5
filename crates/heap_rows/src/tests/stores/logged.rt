//! A plain store whose keys tell their log.

use super::*;
use crate::tests::told_keys::ToldKeys;
use snap_store::PlainStore;
use std::test::Fail;

/// A write, a read, and a removal that finds nothing.
const STEPS: [(Step<'static>, Option<i64>); 3] = [
    (Step::Put(&[0x61], 1), Some(1)),
    (Step::Read(&[0x61]), Some(1)),
    (Step::Remove(&[0x62]), Some(0)),
];

/// The texts that these ask for.
const ASKED: [&[u16]; 3] = [&[0x61], &[0x61], &[0x62]];

/// The first step that answers otherwise than it should, and whether all of them are told.
fn told(alloc: Global) -> Result<(Option<usize>, bool), Refused> {
    let mut store = PlainStore::new(alloc, ToldKeys::new(alloc))?;
    let wrong = played_anew(alloc, &mut store, Kind::Plain, &STEPS)?;
    Ok((wrong, are_texts(store.into_keys().log(), &ASKED)))
}

// Each use of a key is told, once: those of a write, of a read, and of a removal that finds nothing.
#[test]
fn tells_its_log(rt: HostRuntime) -> Result<(), Fail> {
    assert_eq!(rt; told(rt.alloc())?, (None, true));
    Ok(())
}
