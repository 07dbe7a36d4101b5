//! Stores, called through the trait's bound.

ghost use Rattle.std.specs.Prelude.{◌≡◌, ◌≤◌, ◌<◌, ℕ, IfOk, Some, length};
ghost use Rattle.snap_graph.specs.declared.kind.Kind.TheVariants.{Native};
ghost use Rattle.snap_graph.specs.Intrinsics.{IsNative};
ghost use Rattle.snap_graph.specs.Values.{IsValue};

mod actions;
mod logged;
mod plain;
mod wide;

use heap_words::{Refused, new_node, takes_properties};
use snap_graph::{Kind, Value};
use snap_store::Store;
use snap_text::{Key, Units};
use std::alloc::Global;

/// Makes a node with no prototype.
fn made<S: Store>(store: &mut S, kind: Kind) -> Result<u32, Refused>
    requires { (number : ℕ) → kind ≡ Native number → IsNative number }
    ensures node { IfOk result (λ node. node < length (S.view store.new).nodes) }
    ensures grows { length (S.view store.old).nodes ≤ length (S.view store.new).nodes }
{
    new_node(store, kind, &Value::Null)
}

/// A number, held.
fn held_number<S: Store>(store: &mut S, number: u8) -> Result<S::Held, Refused>
    ensures owned { IfOk result (λ held. S.owns store.new held) }
    ensures value { IfOk result (λ held. IsValue (length (S.view store.new).nodes) (S.meaning store.new held)) }
    ensures view { S.view store.new ≡ S.view store.old }
    ensures later { S.later store.old store.new }
{
    Ok(store.hold(&Value::Int(i64::from(number)))?)
}

/// The key of a text.
fn key_of<S: Store>(alloc: Global, store: &mut S, units: &[u16]) -> Result<Key, Refused>
    ensures key { IfOk result (λ key. S.key_of store.new units.now ≡ Some key) }
    ensures nodes { (S.view store.new).nodes ≡ (S.view store.old).nodes }
    ensures later { S.later store.old store.new }
{
    let text = Units::of(alloc, units)?;
    Ok(store.key(&text)?)
}

/// Writes a property of a node that is neither frozen nor an array. Of any other it says that it does not.
fn put<S: Store>(
    alloc: Global,
    store: &mut S,
    node: u32,
    units: &[u16],
    number: u8,
) -> Result<bool, Refused>
    requires { node < length (S.view store.old).nodes }
    ensures { length (S.view store.new).nodes ≡ length (S.view store.old).nodes }
{
    if !takes_properties(store, node) {
        return Ok(false);
    }
    let key = key_of(alloc, store, units)?;
    let held = held_number(store, number)?;
    store.put_own(node, key, &held)?;
    Ok(true)
}

/// What a node holds under a key.
fn read<S: Store>(
    alloc: Global,
    store: &mut S,
    node: u32,
    units: &[u16],
) -> Result<Option<Value>, Refused>
    requires { node < length (S.view store.old).nodes }
    ensures { length (S.view store.new).nodes ≡ length (S.view store.old).nodes }
{
    let key = key_of(alloc, store, units)?;
    match store.own(node, key) {
        Some(held) => Ok(Some(store.value(&held)?)),
        None => Ok(None),
    }
}

/// Removes a property of a node that is not frozen, and says whether there was one.
fn removed<S: Store>(
    alloc: Global,
    store: &mut S,
    node: u32,
    units: &[u16],
) -> Result<bool, Refused>
    requires { node < length (S.view store.old).nodes }
    ensures { length (S.view store.new).nodes ≡ length (S.view store.old).nodes }
{
    if store.is_frozen(node) {
        return Ok(false);
    }
    let key = key_of(alloc, store, units)?;
    Ok(store.remove_own(node, key)?)
}

/// Puts a number behind the elements of an array that is not frozen. Of any other node it says that it does not.
fn pushed<S: Store>(store: &mut S, node: u32, number: u8) -> Result<bool, Refused>
    requires { node < length (S.view store.old).nodes }
    ensures { length (S.view store.new).nodes ≡ length (S.view store.old).nodes }
{
    if store.is_frozen(node) || store.kind(node) != Kind::Array {
        return Ok(false);
    }
    let held = held_number(store, number)?;
    store.push_element(node, &held)?;
    Ok(true)
}

/// Puts a number behind the elements of an array so many times, and says whether each time it was done.
fn filled<S: Store>(store: &mut S, node: u32, count: u32) -> Result<bool, Refused>
    requires { node < length (S.view store.old).nodes }
    ensures { length (S.view store.new).nodes ≡ length (S.view store.old).nodes }
{
    for _turn in 0..count {
        if !pushed(store, node, 0)? {
            return Ok(false);
        }
    }
    Ok(true)
}

/// Writes an element of an array that is not frozen.
fn written<S: Store>(store: &mut S, node: u32, i: u32, number: u8) -> Result<bool, Refused>
    requires { node < length (S.view store.old).nodes }
    ensures { length (S.view store.new).nodes ≡ length (S.view store.old).nodes }
{
    if store.is_frozen(node) || store.kind(node) != Kind::Array || i >= store.count(node) {
        return Ok(false);
    }
    let held = held_number(store, number)?;
    store.set_element(node, i, &held);
    Ok(true)
}

/// Takes the last element of an array that is not frozen.
fn popped<S: Store>(store: &mut S, node: u32) -> Result<Option<Value>, Refused>
    requires { node < length (S.view store.old).nodes }
    ensures { length (S.view store.new).nodes ≡ length (S.view store.old).nodes }
{
    if store.is_frozen(node) || store.kind(node) != Kind::Array {
        return Ok(None);
    }
    match store.pop_element(node) {
        Some(held) => Ok(Some(store.value(&held)?)),
        None => Ok(None),
    }
}

/// An element.
fn element<S: Store>(store: &S, node: u32, i: u32) -> Result<Option<Value>, Refused>
    requires { node < length (S.view store.now).nodes }
{
    if i >= store.count(node) {
        return Ok(None);
    }
    let held = store.element(node, i);
    Ok(Some(store.value(&held)?))
}

/// The prototype of a node.
fn prototype<S: Store>(store: &S, node: u32) -> Result<Value, Refused>
    requires { node < length (S.view store.now).nodes }
{
    let held = store.prototype(node);
    Ok(store.value(&held)?)
}

/// Closes a node that is a resource.
fn closed<S: Store>(store: &mut S, node: u32)
    requires { node < length (S.view store.old).nodes }
    ensures { length (S.view store.new).nodes ≡ length (S.view store.old).nodes }
{
    if let Kind::Resource { .. } = store.kind(node) {
        store.close(node);
    }
}

/// Freezes a node.
fn frozen<S: Store>(store: &mut S, node: u32)
    requires { node < length (S.view store.old).nodes }
    ensures { length (S.view store.new).nodes ≡ length (S.view store.old).nodes }
{
    store.freeze(node);
}

/// Whether these are the keys of a node, in order.
fn has_keys<S: Store>(store: &S, node: u32, order: &[&[u16]]) -> Result<bool, Refused>
    requires { node < length (S.view store.now).nodes }
{
    let keys = store.own_keys(node)?;
    Ok(are_texts(keys.as_slice(), order))
}

/// Whether the texts are these, in order.
fn are_texts(texts: &[Units], order: &[&[u16]]) -> bool {
    if texts.len() != order.len() {
        return false;
    }
    for (text, units) in texts.iter().zip(order) {
        if text.units() != *units {
            return false;
        }
    }
    true
}

/// The number that a value is, a node's too.
fn number(value: Option<Value>) -> Option<i64> {
    match value? {
        Value::Int(number) => Some(number),
        Value::Node(node) => Some(i64::from(node)),
        _ => None,
    }
}

/// One call on a node.
#[derive(Clone, Copy)]
enum Step<'a> {
    Put(&'a [u16], u8),
    Read(&'a [u16]),
    Remove(&'a [u16]),
    Push(u8),
    Write(u32, u8),
    Element(u32),
    Pop,
    Freeze,
}

/// What a step answers: the number that it reads, whether there was a property, or whether it was done.
fn taken<S: Store>(
    alloc: Global,
    store: &mut S,
    node: u32,
    step: Step,
) -> Result<Option<i64>, Refused>
    requires { node < length (S.view store.old).nodes }
    ensures { length (S.view store.new).nodes ≡ length (S.view store.old).nodes }
{
    match step {
        Step::Put(key, value) => Ok(Some(i64::from(put(alloc, store, node, key, value)?))),
        Step::Read(key) => Ok(number(read(alloc, store, node, key)?)),
        Step::Remove(key) => Ok(Some(i64::from(removed(alloc, store, node, key)?))),
        Step::Push(value) => Ok(Some(i64::from(pushed(store, node, value)?))),
        Step::Write(i, value) => Ok(Some(i64::from(written(store, node, i, value)?))),
        Step::Element(i) => Ok(number(element(store, node, i)?)),
        Step::Pop => Ok(number(popped(store, node)?)),
        Step::Freeze => {
            frozen(store, node);
            Ok(None)
        }
    }
}

/// The first step that answers otherwise than it should.
fn played<S: Store>(
    alloc: Global,
    store: &mut S,
    node: u32,
    steps: &[(Step, Option<i64>)],
) -> Result<Option<usize>, Refused>
    requires { node < length (S.view store.old).nodes }
    ensures { length (S.view store.new).nodes ≡ length (S.view store.old).nodes }
{
    for (place, step) in steps.iter().enumerate() {
        if taken(alloc, store, node, step.0)? != step.1 {
            return Ok(Some(place));
        }
    }
    Ok(None)
}

/// The first step that answers otherwise than it should, of a new node.
fn played_anew<S: Store>(
    alloc: Global,
    store: &mut S,
    kind: Kind,
    steps: &[(Step, Option<i64>)],
) -> Result<Option<usize>, Refused>
    requires { (number : ℕ) → kind ≡ Native number → IsNative number }
{
    let node = made(store, kind)?;
    played(alloc, store, node, steps)
}

/// What is tried over a plain store.
#[derive(Clone, Copy)]
enum Case {
    Array,
    Scope,
    Resource,
    OwnKeys,
    Errors,
    Properties,
    Elements,
    Marks,
    ManyNodes,
    ManyElements,
}

/// Whether what is tried comes to what it should.
fn holds<S: Store>(alloc: Global, store: &mut S, case: Case) -> Result<bool, Refused> {
    match case {
        Case::Array => actions::array_holds(store),
        Case::Scope => actions::scope_holds(store),
        Case::Resource => actions::resource_holds(store),
        Case::OwnKeys => actions::lists_keys(alloc, store),
        Case::Errors => actions::errors_hold(alloc, store),
        Case::Properties => plain::properties_hold(alloc, store),
        Case::Elements => plain::elements_hold(alloc, store),
        Case::Marks => plain::marks_hold(store),
        Case::ManyNodes => plain::many_nodes_hold(store),
        Case::ManyElements => plain::many_elements_hold(store),
    }
}

/// Whether it does so over a plain store of the intrinsics alone. The tests themselves are about no store, since each call at a
/// store's own type is long to prove.
fn holds_plain(alloc: Global, case: Case) -> Result<bool, Refused> {
    let mut store = plain::plain(alloc)?;
    holds(alloc, &mut store, case)
}
