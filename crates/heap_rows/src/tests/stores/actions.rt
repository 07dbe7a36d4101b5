//! The calls of a store as actions.

ghost use Rattle.std.specs.Prelude.{◌≡◌, ◌<◌, ℕ, length};
ghost use Rattle.snap_graph.specs.declared.kind.Kind.TheVariants.{Native};
ghost use Rattle.snap_graph.specs.Intrinsics.{IsNative};

use super::*;
use heap_words::last_node;
use snap_action::{
    ErrorKind, add_element, close_resource, count_elements, freeze_node, is_frozen, kind_of_node,
    list_own_keys, own_property, pop_element, push_element, read_element, read_value, throw_error,
    use_text, write_element,
};
use snap_graph::ScopeKind;
use snap_object::Abrupt;
use snap_text::{StrView, Units};
use std::test::Fail;

/// Puts a number behind the elements of a node: of an array as a script does, of any other as a scope or a function is
/// made.
fn grown<S: Store>(store: &mut S, node: u32, number: u8) -> Result<(), Refused> {
    let last = last_node(store)?;
    let held = held_number(store, number)?;
    if node > last || store.is_frozen(node) {
        return Err(Refused::Row);
    }
    match store.kind(node) {
        Kind::Array => Ok(push_element(store, node, &held)?),
        Kind::Scope { .. } => Ok(add_element(store, node, &held)?),
        _ => Err(Refused::Row),
    }
}

/// Writes an element of an array.
fn set<S: Store>(store: &mut S, node: u32, i: u32, number: u8) -> Result<(), Refused> {
    let last = last_node(store)?;
    let held = held_number(store, number)?;
    if node > last
        || store.is_frozen(node)
        || store.kind(node) != Kind::Array
        || i >= store.count(node)
    {
        return Err(Refused::Row);
    }
    write_element(store, node, i, &held);
    Ok(())
}

/// Takes the last element of an array.
fn taken_last<S: Store>(store: &mut S, node: u32) -> Result<Option<i64>, Refused> {
    let last = last_node(store)?;
    if node > last || store.is_frozen(node) || store.kind(node) != Kind::Array {
        return Err(Refused::Row);
    }
    match pop_element(store, node) {
        Some(held) => Ok(number(Some(read_value(store, &held)?))),
        None => Ok(None),
    }
}

/// An element, or nothing behind the last.
fn read_at<S: Store>(store: &mut S, node: u32, i: u32) -> Result<Option<i64>, Refused> {
    let last = last_node(store)?;
    if node > last || i >= store.count(node) {
        return Ok(None);
    }
    let held = read_element(store, node, i);
    Ok(number(Some(read_value(store, &held)?)))
}

/// How many elements a node has.
fn counted<S: Store>(store: &mut S, node: u32) -> Result<u32, Refused> {
    let last = last_node(store)?;
    if node > last {
        return Err(Refused::Row);
    }
    Ok(count_elements(store, node))
}

/// What an array comes to that is grown twice, written and popped: its first element, the last, and how many are left.
fn array<S: Store>(store: &mut S) -> Result<(Option<i64>, Option<i64>, u32), Refused> {
    let node = made(store, Kind::Array)?;
    grown(store, node, 1)?;
    grown(store, node, 2)?;
    set(store, node, 0, 3)?;
    let last = taken_last(store, node)?;
    Ok((read_at(store, node, 0)?, last, counted(store, node)?))
}

/// The kind of a block's scope.
fn block() -> Kind
    ensures { (number : ℕ) → result ≡ Native number → IsNative number }
{
    Kind::Scope {
        scope: ScopeKind::Block,
    }
}

/// What a block's scope comes to that is grown twice: its elements, and how many there are.
fn scope<S: Store>(store: &mut S) -> Result<(Option<i64>, Option<i64>, u32), Refused> {
    let node = made(store, block())?;
    grown(store, node, 4)?;
    grown(store, node, 5)?;
    let first = read_at(store, node, 0)?;
    Ok((first, read_at(store, node, 1)?, counted(store, node)?))
}

/// Freezes a node.
fn freeze<S: Store>(store: &mut S, node: u32) -> Result<(), Refused> {
    let last = last_node(store)?;
    if node > last {
        return Err(Refused::Row);
    }
    freeze_node(store, node);
    Ok(())
}

/// What a node is, and whether it is frozen.
fn marks<S: Store>(store: &mut S, node: u32) -> Result<(Kind, bool), Refused> {
    let last = last_node(store)?;
    if node > last {
        return Err(Refused::Row);
    }
    Ok((kind_of_node(store, node), is_frozen(store, node)))
}

/// What a resource is once it is closed and frozen, and whether it is frozen.
fn shut<S: Store>(store: &mut S) -> Result<(Kind, bool), Refused> {
    let open = Kind::Resource {
        number: 5,
        closed: false,
    };
    let node = made(store, open)?;
    if let Kind::Resource { .. } = store.kind(node) {
        close_resource(store, node);
    }
    freeze(store, node)?;
    marks(store, node)
}

/// Whether the own keys of an object with a name and an index behind it are listed in order.
pub(super) fn lists_keys<S: Store>(alloc: Global, store: &mut S) -> Result<bool, Refused> {
    let node = made(store, Kind::Plain)?;
    put(alloc, store, node, &[0x61], 1)?;
    put(alloc, store, node, &[0x39], 2)?;
    let keys = list_own_keys(store, node)?;
    Ok(are_texts(keys.as_slice(), &[&[0x39], &[0x61]]))
}

/// The number of the prototype of a node that was thrown.
fn prototype_of<S: Store>(store: &mut S, error: &Value) -> Result<Option<i64>, Refused> {
    let last = last_node(store)?;
    match error {
        Value::Node(node) if *node <= last => Ok(number(Some(prototype(store, *node)?))),
        _ => Err(Refused::Row),
    }
}

/// Whether what is held is the text `no`.
fn is_no<S: Store>(store: &S, held: &S::Held) -> Result<bool, Refused>
    requires { S.owns store.now held.now }
{
    match store.value(held)? {
        Value::Text(text) => Ok(StrView::One(b"no").same(&text)),
        _ => Ok(false),
    }
}

/// Whether what a node holds under a text is the text `no`.
fn holds_no<S: Store>(store: &mut S, node: u32, text: &Units) -> Result<bool, Refused>
    requires { node < length (S.view store.old).nodes }
{
    let key = use_text(store, text)?;
    match own_property(store, node, text, key) {
        Some(held) => is_no(store, &held),
        None => Ok(false),
    }
}

/// Whether what a node holds under `message` is the text `no`.
fn says_no<S: Store>(alloc: Global, store: &mut S, error: &Value) -> Result<bool, Refused> {
    let text = StrView::One(b"message").copy(alloc)?;
    let last = last_node(store)?;
    match error {
        Value::Node(node) if *node <= last => holds_no(store, *node, &text),
        _ => Ok(false),
    }
}

/// The number of the prototype of an error of this kind that is thrown with the message `no`, if it has that.
fn thrown<S: Store>(alloc: Global, store: &mut S, kind: ErrorKind) -> Result<Option<i64>, Refused> {
    let error = match throw_error(alloc, store, kind, b"no") {
        Abrupt::Threw(held) => store.value(&held)?,
        other => return Err(Refused::from(other)),
    };
    if says_no(alloc, store, &error)? {
        prototype_of(store, &error)
    } else {
        Ok(None)
    }
}

/// Whether an array comes to what it should.
pub(super) fn array_holds<S: Store>(store: &mut S) -> Result<bool, Refused> {
    Ok(array(store)? == (Some(3), Some(2), 1))
}

/// Whether a block's scope comes to what it should.
pub(super) fn scope_holds<S: Store>(store: &mut S) -> Result<bool, Refused> {
    Ok(scope(store)? == (Some(4), Some(5), 2))
}

/// Whether a resource comes to what it should.
pub(super) fn resource_holds<S: Store>(store: &mut S) -> Result<bool, Refused> {
    let closed = Kind::Resource {
        number: 5,
        closed: true,
    };
    Ok(shut(store)? == (closed, true))
}

/// The errors, and the numbers of their prototypes, which stand in the order of the intrinsics: Error, TypeError, ReferenceError,
/// RangeError from number 6 on.
const ERRORS: [(ErrorKind, i64); 4] = [
    (ErrorKind::Error, 6),
    (ErrorKind::TypeError, 7),
    (ErrorKind::ReferenceError, 8),
    (ErrorKind::RangeError, 9),
];

/// Whether each error that is thrown has its prototype and its message.
pub(super) fn errors_hold<S: Store>(alloc: Global, store: &mut S) -> Result<bool, Refused> {
    for (kind, number) in ERRORS {
        if thrown(alloc, store, kind)? != Some(number) {
            return Ok(false);
        }
    }
    Ok(true)
}

#[test]
fn grows_and_pops_an_array(rt: HostRuntime) -> Result<(), Fail> {
    assert!(rt; holds_plain(rt.alloc(), Case::Array)?);
    Ok(())
}

#[test]
fn grows_a_scope(rt: HostRuntime) -> Result<(), Fail> {
    assert!(rt; holds_plain(rt.alloc(), Case::Scope)?);
    Ok(())
}

#[test]
fn shuts_a_resource(rt: HostRuntime) -> Result<(), Fail> {
    assert!(rt; holds_plain(rt.alloc(), Case::Resource)?);
    Ok(())
}

#[test]
fn lists_keys_in_order(rt: HostRuntime) -> Result<(), Fail> {
    assert!(rt; holds_plain(rt.alloc(), Case::OwnKeys)?);
    Ok(())
}

#[test]
fn throws_each_error(rt: HostRuntime) -> Result<(), Fail> {
    assert!(rt; holds_plain(rt.alloc(), Case::Errors)?);
    Ok(())
}
