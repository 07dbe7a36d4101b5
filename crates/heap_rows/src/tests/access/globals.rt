//! Names of the global object, and the keys that they use.

ghost use Rattle.std.specs.Prelude.{◌≡◌, ◌<◌, IfOk, None, Some, false, length, true};
ghost use Rattle.snap_action.specs.Gives.{Owns, cut_of};
ghost use Rattle.spec_values.specs.Access.{is_array};
ghost use Rattle.spec_values.specs.Operations.{kind_of};

use super::samples::may_be_prototype;
use crate::tests::told_keys::ToldKeys;
use heap_words::{Refused, last_node, new_node};
use snap_graph::{Kind, Value, intrinsic};
use snap_object::{Abrupt, Name, delete_by_name, find_global, set_by_name, set_global};
use snap_store::{PlainStore, Store};
use snap_text::{Key, StrView, Units};
use std::alloc::Global;
use std::test::Fail;

/// What a step with a name comes to.
#[derive(Clone, Copy, Debug, PartialEq, Eq)]
enum Came {
    /// The name is absent.
    Absent,
    /// It stands for undefined.
    Undefined,
    /// It stands for this number.
    Number(i64),
    /// It stands for something else.
    Other,
    /// It was written.
    Written,
    /// A ReferenceError was thrown.
    ReferenceError,
    /// A TypeError was thrown.
    TypeError,
}

/// What is done with a name.
#[derive(Clone, Copy)]
enum Step {
    /// It is looked for.
    Find,
    /// It is looked for, and a number is written.
    Write(u8),
    /// It is looked for and deleted, and a number is written.
    WriteGone(u8),
}

/// Steps with names, one after the other over a global object that has `u`, which holds undefined, and what each comes to. In
/// Node.js `typeof v` and `v` of an absent name differ, `u` does not throw, a write of `hasOwnProperty` to an object whose
/// prototype is frozen throws a TypeError in strict mode, and a name that is deleted before it is written throws there.
const STEPS: [(&[u8], Step, Came); 9] = [
    (b"u", Step::Find, Came::Undefined),
    (b"v", Step::Find, Came::Absent),
    (b"hasOwnProperty", Step::Find, Came::Other),
    (b"u", Step::Write(1), Came::Written),
    (b"u", Step::Find, Came::Number(1)),
    (b"v", Step::Write(2), Came::ReferenceError),
    (b"hasOwnProperty", Step::Write(3), Came::TypeError),
    (b"u", Step::WriteGone(4), Came::ReferenceError),
    (b"u", Step::Find, Came::Absent),
];

/// The keys that they use, the first of which makes `u`: a write uses none beside the one of its look-up, and an error that of
/// its message.
const USED: [&[u8]; 14] = [
    b"u",
    b"u",
    b"v",
    b"hasOwnProperty",
    b"u",
    b"u",
    b"v",
    b"message",
    b"hasOwnProperty",
    b"message",
    b"u",
    b"u",
    b"message",
    b"u",
];

/// A plain node under Object.prototype.
fn plain_node<S: Store>(store: &mut S) -> Result<u32, Refused>
    ensures { IfOk result (λ number. number < length (S.view store.new).nodes) }
{
    let last = last_node(store)?;
    let prototype = Value::Node(intrinsic::OBJECT_PROTOTYPE);
    if !may_be_prototype(store, last, &prototype) {
        return Err(Refused::Row);
    }
    new_node(store, Kind::Plain, &prototype)
}

/// The name of a text. No store was asked for its key.
fn name_of(alloc: Global, text: &[u8]) -> Result<Name, Refused>
    ensures { IfOk result (λ name. name.key ≡ None) }
{
    Ok(Name::new(StrView::One(text).copy(alloc)?))
}

/// A global object that has `u`, which holds undefined.
fn global_object<S: Store>(alloc: Global, store: &mut S) -> Result<u32, Refused> {
    let global = plain_node(store)?;
    let base = store.hold(&Value::Node(global))?;
    let held = store.hold(&Value::Undefined)?;
    let mut name = name_of(alloc, b"u")?;
    set_by_name(alloc, store, &base, &mut name, &held)?;
    Ok(global)
}

/// What a value that was found is.
fn came_of<S: Store>(store: &S, held: &S::Held) -> Result<Came, Refused>
    requires { S.owns store.now held.now }
{
    match store.value(held)? {
        Value::Undefined => Ok(Came::Undefined),
        Value::Int(number) => Ok(Came::Number(number)),
        _ => Ok(Came::Other),
    }
}

/// Looks for a name.
fn find<S: Store>(alloc: Global, store: &mut S, global: u32, text: &[u8]) -> Result<Came, Refused>
    requires { global < length (S.view store.old).nodes }
{
    let mut name = name_of(alloc, text)?;
    let found = find_global(alloc, store, global, &mut name)?;
    match found.held {
        Some(held) => came_of(store, &held),
        None => Ok(Came::Absent),
    }
}

/// Looks for a name, and writes it.
fn write<S: Store>(
    alloc: Global,
    store: &mut S,
    global: u32,
    text: &[u8],
    number: u8,
) -> Result<Came, Refused>
    requires { global < length (S.view store.old).nodes }
{
    let mut name = name_of(alloc, text)?;
    let found = find_global(alloc, store, global, &mut name)?;
    put(alloc, store, global, name.text(), found.key, number)
}

/// Looks for a name, deletes it, and writes it.
fn write_gone<S: Store>(
    alloc: Global,
    store: &mut S,
    global: u32,
    text: &[u8],
    number: u8,
) -> Result<Came, Refused>
    requires { global < length (S.view store.old).nodes }
{
    let mut name = name_of(alloc, text)?;
    let found = find_global(alloc, store, global, &mut name)?;
    let base = store.hold(&Value::Node(global))?;
    delete_by_name(alloc, store, &base, &mut name)?;
    let last = last_node(store)?;
    if global > last {
        return Err(Refused::Row);
    }
    put(alloc, store, global, name.text(), found.key, number)
}

/// Whether a node is plain.
fn is_plain<S: Store>(store: &S, node: u32) -> bool
    requires { node < length (S.view store.now).nodes }
    ensures { result ≡ true → is_array (kind_of (S.view store.now).nodes node) ≡ false }
{
    matches!(store.kind(node), Kind::Plain)
}

/// Writes a name whose key was used.
fn put<S: Store>(
    alloc: Global,
    store: &mut S,
    global: u32,
    name: &Units,
    key: Key,
    number: u8,
) -> Result<Came, Refused>
    requires number { global < length (S.view store.old).nodes }
    requires key { S.key_of store.old name.now ≡ Some key }
{
    let held = store.hold(&Value::Int(i64::from(number)))?;
    if !is_plain(store, global) {
        return Err(Refused::Row);
    }
    let given = set_global(alloc, store, global, name, key, &held);
    write_came(store, given)
}

/// What a write came to.
fn write_came<S: Store>(store: &mut S, given: Result<(), Abrupt<S::Held>>) -> Result<Came, Refused>
    requires { Owns cut_of (S.owns store.old) (λ done. Unit {0}) given }
{
    match given {
        Ok(()) => Ok(Came::Written),
        Err(Abrupt::Threw(error)) => thrown(store, &error),
        Err(fault) => Err(Refused::from(fault)),
    }
}

/// Which error was thrown.
fn thrown<S: Store>(store: &mut S, error: &S::Held) -> Result<Came, Refused>
    requires { S.owns store.old error.now }
{
    let error = store.value(error)?;
    let last = last_node(store)?;
    match error {
        Value::Node(node) => error_of(store, last, node),
        _ => Err(Refused::Error),
    }
}

/// Which error a node is.
fn error_of<S: Store>(store: &S, last: u32, node: u32) -> Result<Came, Refused>
    requires { last < length (S.view store.now).nodes }
{
    if node > last {
        return Err(Refused::Row);
    }
    let prototype = store.prototype(node);
    match store.value(&prototype)? {
        Value::Node(7) => Ok(Came::TypeError),
        Value::Node(8) => Ok(Came::ReferenceError),
        _ => Err(Refused::Error),
    }
}

/// Takes a step with a name.
fn take<S: Store>(
    alloc: Global,
    store: &mut S,
    global: u32,
    text: &[u8],
    step: Step,
) -> Result<Came, Refused> {
    let last = last_node(store)?;
    if global > last {
        return Err(Refused::Row);
    }
    match step {
        Step::Find => find(alloc, store, global, text),
        Step::Write(number) => write(alloc, store, global, text, number),
        Step::WriteGone(number) => write_gone(alloc, store, global, text, number),
    }
}

/// The place of the first step that comes to something else.
fn first_wrong<S: Store>(alloc: Global, store: &mut S) -> Result<Option<usize>, Refused> {
    let global = global_object(alloc, store)?;
    for (place, row) in STEPS.iter().enumerate() {
        if take(alloc, store, global, row.0, row.1)? != row.2 {
            return Ok(Some(place));
        }
    }
    Ok(None)
}

/// That over a store whose keys tell their log, and those keys.
fn first_wrong_told(alloc: Global) -> Result<(Option<usize>, ToldKeys), Refused> {
    let mut store = PlainStore::new(alloc, ToldKeys::new(alloc))?;
    let wrong = first_wrong(alloc, &mut store)?;
    Ok((wrong, store.into_keys()))
}

/// Whether the texts are these.
fn are_used(log: &[Units], used: &[&[u8]]) -> bool {
    if log.len() != used.len() {
        return false;
    }
    for (text, one) in log.iter().zip(used) {
        if !StrView::One(one).same(text) {
            return false;
        }
    }
    true
}

#[test]
fn finds_and_writes_names(rt: HostRuntime) -> Result<(), Fail> {
    let (wrong, keys) = first_wrong_told(rt.alloc())?;
    assert_eq!(rt; wrong, None);
    assert_eq!(rt; are_used(keys.log(), &USED), true);
    Ok(())
}
