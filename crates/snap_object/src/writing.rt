//! Writing a property.

ghost use Rattle.std.specs.Prelude.{◌≡◌, ◌<◌, None, Some, Ok, OnOk, Err, false, length};
ghost use Rattle.std.specs.Bool.{OnFalse, OnTrue};
ghost use Rattle.snap_action.specs.Gives.{Gives, as_is};
ghost use Rattle.snap_action.specs.Names.{IsKnown};
ghost use Rattle.snap_graph.specs.declared.kind.Kind.TheVariants.{Array};
ghost use Rattle.snap_graph.specs.declared.value.Value.TheVariants.{Node as At, Text};
ghost use Rattle.snap_graph.specs.Lawful.{IsElementKey};
ghost use Rattle.snap_graph.specs.OwnKeys.{array_index};
ghost use Rattle.snap_graph.specs.Values.{IsPlace, IsValue};
ghost use Rattle.snap_object.specs.Names.{StaysKnown};
ghost use Rattle.snap_object.specs.Parts.{length_kept, may_write_from, put_unless_frozen, refused, set_along, unless_frozen, write_where};
ghost use Rattle.snap_object.specs.Search.{IsOwn, shown};
ghost use Rattle.spec_values.specs.Access.{element_of, index_of, is_length, set, set_element_of, set_named, set_of_node, set_of_text};
ghost use Rattle.spec_values.specs.Operations.{kind_of};

use crate::errors::type_error;
use crate::indices::{element_of, integer_index};
use crate::names::{name_of, named_key};
use crate::outside::unspelled;
use crate::search::{Found, find};
use crate::texts::{base_of, named_by};
use crate::words::{is_array, is_length, is_size, is_special};
use snap_action::{Abrupt, Name, push_element, put_property, write_element};
use snap_base::Stop;
use snap_graph::Value;
use snap_store::Store;
use snap_text::{Key, Units};
use std::alloc::Global;

/// Writes a property of a base (ECMA-262, 6.2.5.6 and 10.1.9), or creates it behind all others.
pub fn set<S: Store>(
    alloc: Global,
    store: &mut S,
    base: &S::Held,
    key: &Value,
    held: &S::Held,
) -> Result<(), Abrupt<S::Held>>
    requires base { S.owns store.old base.now }
    requires owned { S.owns store.old held.now }
    requires value { IsValue (length (S.view store.old).nodes) (S.meaning store.old held.now) }
    ensures { Gives S.Store store.old store.new as_is result (set (S.meaning store.old base.now) key.now (S.meaning store.old held.now)) }
{
    let base = base_of(alloc, store, base)?;
    match (integer_index(key), base) {
        (Some(place), Value::Node(node)) => set_at(alloc, store, node, key, place, held),
        (_, base) => set_spelled(alloc, store, &base, key, held),
    }
}

/// Writes a property of a base by a name: exactly what `set` does by the name's text.
pub fn set_by_name<S: Store>(
    alloc: Global,
    store: &mut S,
    base: &S::Held,
    name: &mut Name,
    held: &S::Held,
) -> Result<(), Abrupt<S::Held>>
    requires base { S.owns store.old base.now }
    requires known { IsKnown (S.key_of store.old) name.old }
    requires owned { S.owns store.old held.now }
    requires value { IsValue (length (S.view store.old).nodes) (S.meaning store.old held.now) }
    ensures gives { Gives S.Store store.old store.new as_is result (set (S.meaning store.old base.now) (Text name.old.text) (S.meaning store.old held.now)) }
    ensures kept { StaysKnown (S.key_of store.new) name.old name.new }
{
    let base = base_of(alloc, store, base)?;
    set_of(alloc, store, &base, name, held)
}

/// Writes a property of a base by a key that is held: exactly what `set` does by the key's value. The name is a place to work
/// in: a key that is a text is copied there, which takes no memory where it has room.
pub fn set_by_key<S: Store>(
    alloc: Global,
    store: &mut S,
    base: &S::Held,
    key: &S::Held,
    name: &mut Name,
    held: &S::Held,
) -> Result<(), Abrupt<S::Held>>
    requires base { S.owns store.old base.now }
    requires key { S.owns store.old key.now }
    requires owned { S.owns store.old held.now }
    requires value { IsValue (length (S.view store.old).nodes) (S.meaning store.old held.now) }
    ensures { Gives S.Store store.old store.new as_is result (set (S.meaning store.old base.now) (S.meaning store.old key.now) (S.meaning store.old held.now)) }
{
    if named_by(alloc, store, key, name)? {
        return set_by_name(alloc, store, base, name, held);
    }
    let key = store.value(key)?;
    set(alloc, store, base, &key, held)
}

// Writes to a node by an integer that is an array index: an element of an array.
fn set_at<S: Store>(
    alloc: Global,
    store: &mut S,
    node: u32,
    key: &Value,
    place: u32,
    held: &S::Held,
) -> Result<(), Abrupt<S::Held>>
    requires number { node < length (S.view store.old).nodes }
    requires place { index_of key.now ≡ Some place }
    requires owned { S.owns store.old held.now }
    requires value { IsValue (length (S.view store.old).nodes) (S.meaning store.old held.now) }
    ensures { Gives S.Store store.old store.new as_is result (set (At node) key.now (S.meaning store.old held.now)) }
{
    if is_array(store.kind(node)) {
        set_element_of(alloc, store, node, place, held)
    } else {
        set_spelled(alloc, store, &Value::Node(node), key, held)
    }
}

// Writes by the name that a key is.
fn set_spelled<S: Store>(
    alloc: Global,
    store: &mut S,
    base: &Value,
    key: &Value,
    held: &S::Held,
) -> Result<(), Abrupt<S::Held>>
    requires base { IsPlace (length (S.view store.old).nodes) base.now }
    requires owned { S.owns store.old held.now }
    requires value { IsValue (length (S.view store.old).nodes) (S.meaning store.old held.now) }
    ensures { Gives S.Store store.old store.new as_is result (set base.now key.now (S.meaning store.old held.now)) }
{
    match name_of(alloc, key)? {
        Some(mut name) => set_of(alloc, store, base, &mut name, held),
        None => Err(unspelled(alloc, store, base)),
    }
}

// Writes a property of a value by a name.
fn set_of<S: Store>(
    alloc: Global,
    store: &mut S,
    base: &Value,
    name: &mut Name,
    held: &S::Held,
) -> Result<(), Abrupt<S::Held>>
    requires base { IsPlace (length (S.view store.old).nodes) base.now }
    requires known { IsKnown (S.key_of store.old) name.old }
    requires owned { S.owns store.old held.now }
    requires value { IsValue (length (S.view store.old).nodes) (S.meaning store.old held.now) }
    ensures gives { Gives S.Store store.old store.new as_is result (set base.now (Text name.old.text) (S.meaning store.old held.now)) }
    ensures kept { StaysKnown (S.key_of store.new) name.old name.new }
{
    match base {
        Value::Undefined | Value::Null => Err(type_error(alloc, store, b"no properties")),
        Value::Bool(_) | Value::Int(_) => refused(alloc, store, name),
        Value::Text(_) => set_of_text(alloc, store, name),
        Value::Node(node) => set_of_node(alloc, store, *node, name, held),
        Value::Empty => Err(Abrupt::Stopped(Stop::NotInProfile)),
    }
}

// A key is used, and the write refused.
fn refused<S: Store>(alloc: Global, store: &mut S, name: &mut Name) -> Result<(), Abrupt<S::Held>>
    requires { IsKnown (S.key_of store.old) name.old }
    ensures gives { Gives S.Store store.old store.new as_is result (refused (Text name.old.text)) }
    ensures kept { StaysKnown (S.key_of store.new) name.old name.new }
{
    named_key(store, name)?;
    Err(type_error(alloc, store, b"not writable"))
}

// Refuses to write to a text. An index is no use of a key.
fn set_of_text<S: Store>(
    alloc: Global,
    store: &mut S,
    name: &mut Name,
) -> Result<(), Abrupt<S::Held>>
    requires { IsKnown (S.key_of store.old) name.old }
    ensures gives { Gives S.Store store.old store.new as_is result (set_of_text (Text name.old.text) (array_index name.old.text)) }
    ensures kept { StaysKnown (S.key_of store.new) name.old name.new }
{
    match name.index() {
        Some(_) => Err(type_error(alloc, store, b"not writable")),
        None => refused(alloc, store, name),
    }
}

// Writes a property of a node: an element of an array, or a property by a name.
fn set_of_node<S: Store>(
    alloc: Global,
    store: &mut S,
    node: u32,
    name: &mut Name,
    held: &S::Held,
) -> Result<(), Abrupt<S::Held>>
    requires number { node < length (S.view store.old).nodes }
    requires known { IsKnown (S.key_of store.old) name.old }
    requires owned { S.owns store.old held.now }
    requires value { IsValue (length (S.view store.old).nodes) (S.meaning store.old held.now) }
    ensures gives { Gives S.Store store.old store.new as_is result
        (set_of_node node (Text name.old.text) (S.meaning store.old held.now) (element_of (S.view store.old).nodes node (Text name.old.text))) }
    ensures kept { StaysKnown (S.key_of store.new) name.old name.new }
{
    match element_of(store, node, name) {
        Some(place) => set_element_of(alloc, store, node, place, held),
        None => named_of_node(alloc, store, node, name, held),
    }
}

// Writes an element of an array, or adds it behind the last one. A frozen array refuses it whatever the place.
fn set_element_of<S: Store>(
    alloc: Global,
    store: &mut S,
    node: u32,
    place: u32,
    held: &S::Held,
) -> Result<(), Abrupt<S::Held>>
    requires number { node < length (S.view store.old).nodes }
    requires kind { kind_of (S.view store.old).nodes node ≡ Some Array }
    requires owned { S.owns store.old held.now }
    requires value { IsValue (length (S.view store.old).nodes) (S.meaning store.old held.now) }
    ensures { Gives S.Store store.old store.new as_is result (set_element_of node place (S.meaning store.old held.now)) }
{
    let count = store.count(node);
    let frozen = store.is_frozen(node);
    if frozen {
        return Err(type_error(alloc, store, b"not writable"));
    }
    if place < count {
        write_element(store, node, place, held);
        return Ok(());
    }
    if place == count {
        return push_element(store, node, held);
    }
    Err(Abrupt::Stopped(Stop::NotInProfile))
}

// Writes a property of a node by a name that is no element's.
fn named_of_node<S: Store>(
    alloc: Global,
    store: &mut S,
    node: u32,
    name: &mut Name,
    held: &S::Held,
) -> Result<(), Abrupt<S::Held>>
    requires number { node < length (S.view store.old).nodes }
    requires element { element_of (S.view store.old).nodes node (Text name.old.text) ≡ None }
    requires known { IsKnown (S.key_of store.old) name.old }
    requires owned { S.owns store.old held.now }
    requires value { IsValue (length (S.view store.old).nodes) (S.meaning store.old held.now) }
    ensures gives { Gives S.Store store.old store.new as_is result (set_of_node node (Text name.old.text) (S.meaning store.old held.now) None) }
    ensures kept { StaysKnown (S.key_of store.new) name.old name.new }
{
    let key = named_key(store, name)?;
    set_named(alloc, store, node, name.text(), key, held)
}

/// Writes a property of a node under a name that was used, where it may be written.
pub(crate) fn set_named<S: Store>(
    alloc: Global,
    store: &mut S,
    node: u32,
    name: &Units,
    key: Key,
    held: &S::Held,
) -> Result<(), Abrupt<S::Held>>
    requires number { node < length (S.view store.old).nodes }
    requires key { S.key_of store.old name.now ≡ Some key }
    requires index { kind_of (S.view store.old).nodes node ≡ Some Array → array_index name.now ≡ None }
    requires owned { S.owns store.old held.now }
    requires value { IsValue (length (S.view store.old).nodes) (S.meaning store.old held.now) }
    ensures { Gives S.Store store.old store.new as_is result (set_named node name.now (S.meaning store.old held.now)) }
{
    if is_length(store, node, name) {
        return Err(keep_length(alloc, store, node));
    }
    if write_in_place(store, node, name, key, held) {
        return Ok(());
    }
    set_along(alloc, store, node, name, key, held)
}

// Why `length` of an array is not written.
fn keep_length<S: Store>(alloc: Global, store: &mut S, node: u32) -> Abrupt<S::Held>
    requires { node < length (S.view store.old).nodes }
    ensures { Gives {R = Unit {0}} S.Store store.old store.new as_is (Err result) (length_kept node) }
{
    if store.is_frozen(node) {
        type_error(alloc, store, b"not writable")
    } else {
        Abrupt::Stopped(Stop::NotInProfile)
    }
}

// Writes a property that a node has of its own, where it may be written; otherwise nothing changes.
fn write_in_place<S: Store>(
    store: &mut S,
    node: u32,
    name: &Units,
    key: Key,
    held: &S::Held,
) -> bool
    requires number { node < length (S.view store.old).nodes }
    requires key { S.key_of store.old name.now ≡ Some key }
    requires length { is_length (S.view store.old).nodes node name.now ≡ false }
    requires element { kind_of (S.view store.old).nodes node ≡ Some Array → IsElementKey name.now → ⊥ }
    requires owned { S.owns store.old held.now }
    requires value { IsValue (length (S.view store.old).nodes) (S.meaning store.old held.now) }
    ensures written { OnTrue result (Gives S.Store store.old store.new as_is (Ok (tt {0})) (set_named node name.now (S.meaning store.old held.now))) }
    ensures absent { OnFalse result (S.view store.new ≡ S.view store.old) }
    ensures later { S.later store.old store.new }
{
    if store.is_frozen(node) || is_special(store.kind(node), name) || is_size(node, name) {
        return false;
    }
    store.write_own(node, key, held)
}

// Writes a property of a node that has none of its own that may be written, unless the prototypes refuse it.
fn set_along<S: Store>(
    alloc: Global,
    store: &mut S,
    node: u32,
    name: &Units,
    key: Key,
    held: &S::Held,
) -> Result<(), Abrupt<S::Held>>
    requires number { node < length (S.view store.old).nodes }
    requires key { S.key_of store.old name.now ≡ Some key }
    requires element { kind_of (S.view store.old).nodes node ≡ Some Array → IsElementKey name.now → ⊥ }
    requires owned { S.owns store.old held.now }
    requires value { IsValue (length (S.view store.old).nodes) (S.meaning store.old held.now) }
    ensures { Gives S.Store store.old store.new as_is result (set_along node name.now (S.meaning store.old held.now)) }
{
    may_write(alloc, store, node, name, key)?;
    put(alloc, store, node, name, key, held)
}

// Looks along the prototypes for what refuses a write of a name.
fn may_write<S: Store>(
    alloc: Global,
    store: &mut S,
    node: u32,
    name: &Units,
    key: Key,
) -> Result<(), Abrupt<S::Held>>
    requires number { node < length (S.view store.old).nodes }
    requires key { S.key_of store.old name.now ≡ Some key }
    ensures gives { Gives S.Store store.old store.new as_is result (may_write_from name.now node) }
    ensures nodes { OnOk result ((S.view store.new).nodes ≡ (S.view store.old).nodes) }
{
    let found = find(store, node, name, key)?;
    may_pass(alloc, store, &found)
}

// Whether what was found refuses a write.
fn may_pass<S: Store>(
    alloc: Global,
    store: &mut S,
    found: &Found<S::Held>,
) -> Result<(), Abrupt<S::Held>>
    requires { IsOwn (S.owns store.old) (length (S.view store.old).nodes) found.now }
    ensures gives { Gives S.Store store.old store.new as_is result (write_where (shown (S.meaning store.old) found.now)) }
    ensures nodes { OnOk result ((S.view store.new).nodes ≡ (S.view store.old).nodes) }
{
    match found {
        Found::Special => Err(Abrupt::Stopped(Stop::NotInProfile)),
        Found::Size(_) => Err(type_error(alloc, store, b"not writable")),
        Found::Own(owner, _) => unless_frozen(alloc, store, *owner),
        Found::Absent => Ok(()),
    }
}

// A frozen node refuses a write.
fn unless_frozen<S: Store>(alloc: Global, store: &mut S, node: u32) -> Result<(), Abrupt<S::Held>>
    requires { node < length (S.view store.old).nodes }
    ensures gives { Gives S.Store store.old store.new as_is result (unless_frozen node) }
    ensures nodes { OnOk result ((S.view store.new).nodes ≡ (S.view store.old).nodes) }
{
    if store.is_frozen(node) {
        Err(type_error(alloc, store, b"not writable"))
    } else {
        Ok(())
    }
}

// Puts a property on a node that is not frozen.
fn put<S: Store>(
    alloc: Global,
    store: &mut S,
    node: u32,
    name: &Units,
    key: Key,
    held: &S::Held,
) -> Result<(), Abrupt<S::Held>>
    requires number { node < length (S.view store.old).nodes }
    requires key { S.key_of store.old name.now ≡ Some key }
    requires element { kind_of (S.view store.old).nodes node ≡ Some Array → IsElementKey name.now → ⊥ }
    requires owned { S.owns store.old held.now }
    requires value { IsValue (length (S.view store.old).nodes) (S.meaning store.old held.now) }
    ensures { Gives S.Store store.old store.new as_is result (put_unless_frozen node name.now (S.meaning store.old held.now)) }
{
    if store.is_frozen(node) {
        return Err(type_error(alloc, store, b"not writable"));
    }
    put_property(store, node, name, key, held)
}
