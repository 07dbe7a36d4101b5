//! Names that are kept: their keys are asked for once.

ghost use Rattle.std.specs.Prelude.{◌≡◌, IfOk, None};
ghost use Rattle.snap_action.specs.Names.{IsKnown};

use crate::tests::told_keys::ToldKeys;
use heap_words::{Refused, new_node};
use snap_arena::TextView;
use snap_graph::{Kind, Value};
use snap_object::{Name, delete_by_name, get_by_name, set_by_name};
use snap_store::{PlainStore, Store};
use snap_text::{OwnKeys, Units};
use std::alloc::Global;
use std::test::Fail;

const A: &[u16] = &[0x61];

const B: &[u16] = &[0x62];

const C: &[u16] = &[0x63];

/// The name of a text.
fn name_of(alloc: Global, units: &[u16]) -> Result<Name, Refused>
    ensures { IfOk result (λ name. name.key ≡ None) }
{
    Ok(Name::new(Units::of(alloc, units)?))
}

/// Writes a number under a name.
fn write<S: Store>(
    alloc: Global,
    store: &mut S,
    base: &S::Held,
    name: &mut Name,
    number: u8,
) -> Result<(), Refused>
    requires owned { S.owns store.old base.now }
    requires known { IsKnown (S.key_of store.old) name.old }
    ensures owned { S.owns store.new base.now }
    ensures known { IsKnown (S.key_of store.new) name.new }
{
    let held = store.hold(&Value::Int(i64::from(number)))?;
    Ok(set_by_name(alloc, store, base, name, &held)?)
}

/// The number that is read under a name, or 0.
fn read<S: Store>(
    alloc: Global,
    store: &mut S,
    base: &S::Held,
    name: &mut Name,
) -> Result<i64, Refused>
    requires owned { S.owns store.old base.now }
    requires known { IsKnown (S.key_of store.old) name.old }
    ensures owned { S.owns store.new base.now }
    ensures known { IsKnown (S.key_of store.new) name.new }
{
    let held = get_by_name(alloc, store, base, name)?;
    match store.value(&held)? {
        Value::Int(number) => Ok(number),
        _ => Ok(0),
    }
}

/// The sum of what so many reads of a name give.
fn sum<S: Store>(
    alloc: Global,
    store: &mut S,
    base: &S::Held,
    name: &mut Name,
    count: u32,
) -> Result<i64, Refused>
    requires owned { S.owns store.old base.now }
    requires known { IsKnown (S.key_of store.old) name.old }
    ensures owned { S.owns store.new base.now }
{
    let mut total = 0_i64;
    for _turn in 0..count {
        total = total.wrapping_add(read(alloc, store, base, name)?);
    }
    Ok(total)
}

/// A new object, held.
fn object<S: Store>(store: &mut S) -> Result<S::Held, Refused>
    ensures { IfOk result (λ held. S.owns store.new held) }
{
    let node = new_node(store, Kind::Plain, &Value::Null)?;
    Ok(store.hold(&Value::Node(node))?)
}

/// Writes a number under a name that is looked up anew.
fn write_anew<S: Store>(
    alloc: Global,
    store: &mut S,
    base: &S::Held,
    units: &[u16],
    number: u8,
) -> Result<(), Refused>
    requires { S.owns store.old base.now }
    ensures { S.owns store.new base.now }
{
    let mut name = name_of(alloc, units)?;
    write(alloc, store, base, &mut name, number)
}

/// Writes a number under a name that is looked up anew, and gives the sum of what so many reads of the name give then.
fn write_and_sum<S: Store>(
    alloc: Global,
    store: &mut S,
    base: &S::Held,
    property: (&[u16], u8),
    count: u32,
) -> Result<i64, Refused>
    requires { S.owns store.old base.now }
    ensures { S.owns store.new base.now }
{
    let mut name = name_of(alloc, property.0)?;
    write(alloc, store, base, &mut name, property.1)?;
    sum(alloc, store, base, &mut name, count)
}

/// The sum of what so many reads give of the second of three properties.
fn sum_of<S: Store>(alloc: Global, store: &mut S, count: u32) -> Result<i64, Refused> {
    let base = object(store)?;
    write_anew(alloc, store, &base, A, 1)?;
    write_anew(alloc, store, &base, C, 3)?;
    write_and_sum(alloc, store, &base, (B, 2), count)
}

/// How many reads the measured test makes: `bench/known_names.py` runs it beside the one that reads once.
const MANY: u32 = 1_000_000;

/// That sum over a plain store.
fn sum_of_plain(alloc: Global, count: u32) -> Result<i64, Refused> {
    let mut store = PlainStore::new(alloc, OwnKeys::new(alloc))?;
    sum_of(alloc, &mut store, count)
}

#[test]
fn reads_a_known_name_once(rt: HostRuntime) -> Result<(), Fail> {
    assert_eq!(rt; sum_of_plain(rt.alloc(), 1)?, 2);
    Ok(())
}

#[test]
fn reads_a_known_name_many_times(rt: HostRuntime) -> Result<(), Fail> {
    assert_eq!(rt; sum_of_plain(rt.alloc(), MANY)?, 2_000_000);
    Ok(())
}

/// Deletes a property by a name that is looked up anew, and says what that gave.
fn delete_anew<S: Store>(
    alloc: Global,
    store: &mut S,
    base: &S::Held,
    units: &[u16],
) -> Result<bool, Refused>
    requires { S.owns store.old base.now }
{
    let mut name = name_of(alloc, units)?;
    Ok(delete_by_name(alloc, store, base, &mut name)?)
}

/// Writes, reads twice and deletes a property by one name, and says what the last two gave.
fn use_one_name<S: Store>(alloc: Global, store: &mut S) -> Result<(i64, bool), Refused> {
    let base = object(store)?;
    let total = write_and_sum(alloc, store, &base, (A, 5), 2)?;
    Ok((total, delete_anew(alloc, store, &base, A)?))
}

/// What that gives over a store whose keys tell their log, and those keys.
fn use_told_name(alloc: Global) -> Result<((i64, bool), ToldKeys), Refused> {
    let mut store = PlainStore::new(alloc, ToldKeys::new(alloc))?;
    let given = use_one_name(alloc, &mut store)?;
    Ok((given, store.into_keys()))
}

// Each use of a name is told, and a name is looked up once: of these two, the first is used three times.
#[test]
fn looks_a_name_up_once(rt: HostRuntime) -> Result<(), Fail> {
    let (given, keys) = use_told_name(rt.alloc())?;
    assert_eq!(rt; given, (10, true));
    assert_eq!(rt; keys.log().len(), 4);
    assert_eq!(rt; keys.given().len(), 2);
    Ok(())
}

/// One use of a name.
#[derive(Clone, Copy)]
enum Use<'a> {
    /// A number is written under it.
    Write(u8),
    /// What is under it is read.
    Read,
    /// It becomes the name of these units.
    Wide(&'a [u16]),
    /// It becomes the name of these units, which stand as bytes.
    Narrow(&'a [u8]),
}

/// Two properties are written by one name that is renamed in between, and the second, the first, and one that is not there are
/// read by the same name. Beside each use stands what it reads.
const USES: [(Use<'static>, Option<i64>); 8] = [
    (Use::Write(1), None),
    (Use::Wide(B), None),
    (Use::Write(2), None),
    (Use::Read, Some(2)),
    (Use::Narrow(b"a"), None),
    (Use::Read, Some(1)),
    (Use::Wide(C), None),
    (Use::Read, Some(0)),
];

/// What a use of a name reads.
fn used<S: Store>(
    alloc: Global,
    store: &mut S,
    base: &S::Held,
    name: &mut Name,
    one: Use,
) -> Result<Option<i64>, Refused>
    requires owned { S.owns store.old base.now }
    requires known { IsKnown (S.key_of store.old) name.old }
    ensures owned { S.owns store.new base.now }
    ensures known { IsKnown (S.key_of store.new) name.new }
{
    match one {
        Use::Write(number) => {
            write(alloc, store, base, name, number)?;
            Ok(None)
        }
        Use::Read => Ok(Some(read(alloc, store, base, name)?)),
        Use::Wide(units) => {
            name.rename(alloc, &TextView::Wide(units))?;
            Ok(None)
        }
        Use::Narrow(bytes) => {
            name.rename(alloc, &TextView::Narrow(bytes))?;
            Ok(None)
        }
    }
}

/// The first use of a name that reads otherwise than it should.
fn first_wrong<S: Store>(
    alloc: Global,
    store: &mut S,
    base: &S::Held,
    name: &mut Name,
    uses: &[(Use, Option<i64>)],
) -> Result<Option<usize>, Refused>
    requires owned { S.owns store.old base.now }
    requires known { IsKnown (S.key_of store.old) name.old }
{
    for (place, one) in uses.iter().enumerate() {
        if used(alloc, store, base, name, one.0)? != one.1 {
            return Ok(Some(place));
        }
    }
    Ok(None)
}

/// That, of a new object and the name of its first property.
fn first_wrong_of_one<S: Store>(alloc: Global, store: &mut S) -> Result<Option<usize>, Refused> {
    let base = object(store)?;
    let mut name = name_of(alloc, A)?;
    first_wrong(alloc, store, &base, &mut name, &USES)
}

#[test]
fn renames_a_name(rt: HostRuntime) -> Result<(), Fail> {
    let mut store = PlainStore::new(rt.alloc(), OwnKeys::new(rt.alloc()))?;
    assert_eq!(rt; first_wrong_of_one(rt.alloc(), &mut store)?, None);
    Ok(())
}
