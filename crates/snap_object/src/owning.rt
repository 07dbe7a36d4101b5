//! Tests of own properties (ECMA-262, 20.1.3.2, Object.prototype.hasOwnProperty).

ghost use Rattle.std.specs.Prelude.{◌≡◌, ◌<◌, None, Some, Err, IsSome, length};
ghost use Rattle.snap_action.specs.Gives.{Gives, as_is};
ghost use Rattle.snap_action.specs.Names.{IsKnown};
ghost use Rattle.snap_graph.specs.declared.value.Value.TheVariants.{Text};
ghost use Rattle.snap_graph.specs.OwnKeys.{array_index};
ghost use Rattle.snap_graph.specs.Values.{IsPlace};
ghost use Rattle.snap_object.specs.Names.{StaysKnown};
ghost use Rattle.snap_object.specs.Parts.{nothing_owned};
ghost use Rattle.snap_store.specs.Calls.{text_units, units_in};
ghost use Rattle.spec_values.specs.Access.{element_of};
ghost use Rattle.spec_values.specs.Asking.{has_own, has_own_named, has_own_of_node, has_own_of_text};

use crate::errors::type_error;
use crate::indices::element_of;
use crate::names::{name_of, named_key};
use crate::outside::outside;
use crate::reading::length_of;
use crate::texts::named_by;
use crate::words::{is_length, is_size, is_special, is_word};
use snap_action::{Abrupt, Name, is_text};
use snap_base::Stop;
use snap_graph::Value;
use snap_store::Store;
use snap_text::{Key, Units};
use std::alloc::Global;

/// Whether a base has a property of its own: an element or `length` of an array, a unit or `length` of a text, or a property
/// under this key, whatever it holds. The prototypes are not looked at. The key is used before the base is judged, unless it
/// is the index of an element or a unit.
pub fn has_own<S: Store>(
    alloc: Global,
    store: &mut S,
    base: &S::Held,
    key: &Value,
) -> Result<bool, Abrupt<S::Held>>
    requires { S.owns store.old base.now }
    ensures { Gives S.Store store.old store.new as_is result (has_own (S.meaning store.old base.now) key.now) }
{
    match name_of(alloc, key)? {
        Some(mut name) => has_own_by_name(alloc, store, base, &mut name),
        None => Err(Abrupt::Stopped(Stop::NotInProfile)),
    }
}

/// Whether a base has a property of its own under a key that is held: exactly what `has_own` finds by the key's value. The name
/// is a place to work in, as for `set_by_key`.
pub fn has_own_by_key<S: Store>(
    alloc: Global,
    store: &mut S,
    base: &S::Held,
    key: &S::Held,
    name: &mut Name,
) -> Result<bool, Abrupt<S::Held>>
    requires base { S.owns store.old base.now }
    requires key { S.owns store.old key.now }
    ensures { Gives S.Store store.old store.new as_is result (has_own (S.meaning store.old base.now) (S.meaning store.old key.now)) }
{
    if named_by(alloc, store, key, name)? {
        return has_own_by_name(alloc, store, base, name);
    }
    let key = store.value(key)?;
    has_own(alloc, store, base, &key)
}

/// Whether a base has a property of its own under a name: exactly what `has_own` finds by the name's text.
pub fn has_own_by_name<S: Store>(
    alloc: Global,
    store: &mut S,
    base: &S::Held,
    name: &mut Name,
) -> Result<bool, Abrupt<S::Held>>
    requires owned { S.owns store.old base.now }
    requires known { IsKnown (S.key_of store.old) name.old }
    ensures gives { Gives S.Store store.old store.new as_is result (has_own (S.meaning store.old base.now) (Text name.old.text)) }
    ensures kept { StaysKnown (S.key_of store.new) name.old name.new }
{
    if is_text(store, base) {
        return text_has_own(store, base, name);
    }
    let base = store.value(base)?;
    value_has_own(alloc, store, &base, name)
}

// Whether a text has a property of its own.
fn text_has_own<S: Store>(
    store: &mut S,
    text: &S::Held,
    name: &mut Name,
) -> Result<bool, Abrupt<S::Held>>
    requires owned { S.owns store.old text.now }
    requires text { IsSome (text_units (S.meaning store.old text.now)) }
    requires known { IsKnown (S.key_of store.old) name.old }
    ensures gives { Gives S.Store store.old store.new as_is result
        (has_own_of_text (units_in (S.meaning store.old text.now)) (Text name.old.text) (array_index name.old.text)) }
    ensures kept { StaysKnown (S.key_of store.new) name.old name.new }
{
    match name.index() {
        Some(place) => Ok((place as usize) < length_of(store, text)),
        None => is_used_length(store, text, name),
    }
}

// A name that is no index is used; a text has it as its own where it is `length`.
fn is_used_length<S: Store>(
    store: &mut S,
    text: &S::Held,
    name: &mut Name,
) -> Result<bool, Abrupt<S::Held>>
    requires known { IsKnown (S.key_of store.old) name.old }
    ensures gives { Gives S.Store store.old store.new as_is result
        (has_own_of_text (units_in (S.meaning store.old text.now)) (Text name.old.text) None) }
    ensures kept { StaysKnown (S.key_of store.new) name.old name.new }
{
    named_key(store, name)?;
    Ok(is_word(name.text(), b"length"))
}

// Whether a value has a property of its own. The value is no text.
fn value_has_own<S: Store>(
    alloc: Global,
    store: &mut S,
    base: &Value,
    name: &mut Name,
) -> Result<bool, Abrupt<S::Held>>
    requires base { IsPlace (length (S.view store.old).nodes) base.now }
    requires plain { text_units base.now ≡ None }
    requires known { IsKnown (S.key_of store.old) name.old }
    ensures gives { Gives S.Store store.old store.new as_is result (has_own base.now (Text name.old.text)) }
    ensures kept { StaysKnown (S.key_of store.new) name.old name.new }
{
    match base {
        Value::Undefined | Value::Null => Err(nothing_owned(alloc, store, name)),
        Value::Bool(_) | Value::Int(_) => Err(outside(store, name)),
        Value::Text(_) => unreachable!(),
        Value::Node(node) => node_has_own(store, *node, name),
        Value::Empty => Err(Abrupt::Stopped(Stop::NotInProfile)),
    }
}

// A key is used, and what has no properties is asked for one.
fn nothing_owned<S: Store>(alloc: Global, store: &mut S, name: &mut Name) -> Abrupt<S::Held>
    requires { IsKnown (S.key_of store.old) name.old }
    ensures gives { Gives {R = Unit {0}} S.Store store.old store.new as_is (Err result) (nothing_owned (Text name.old.text)) }
    ensures kept { StaysKnown (S.key_of store.new) name.old name.new }
{
    match named_key(store, name) {
        Ok(_) => type_error(alloc, store, b"no properties"),
        Err(fault) => fault,
    }
}

// Whether a node has a property of its own.
fn node_has_own<S: Store>(
    store: &mut S,
    node: u32,
    name: &mut Name,
) -> Result<bool, Abrupt<S::Held>>
    requires number { node < length (S.view store.old).nodes }
    requires known { IsKnown (S.key_of store.old) name.old }
    ensures gives { Gives S.Store store.old store.new as_is result
        (has_own_of_node node (Text name.old.text) (element_of (S.view store.old).nodes node (Text name.old.text))) }
    ensures kept { StaysKnown (S.key_of store.new) name.old name.new }
{
    match element_of(store, node, name) {
        Some(place) => Ok(place < store.count(node)),
        None => has_used(store, node, name),
    }
}

// A name that is no element's is used, and a node is asked for it.
fn has_used<S: Store>(store: &mut S, node: u32, name: &mut Name) -> Result<bool, Abrupt<S::Held>>
    requires number { node < length (S.view store.old).nodes }
    requires known { IsKnown (S.key_of store.old) name.old }
    ensures gives { Gives S.Store store.old store.new as_is result (has_own_of_node node (Text name.old.text) None) }
    ensures kept { StaysKnown (S.key_of store.new) name.old name.new }
{
    let key = named_key(store, name)?;
    has_named(store, node, name.text(), key)
}

// Whether a node has a property of its own under a name that was used.
fn has_named<S: Store>(
    store: &S,
    node: u32,
    name: &Units,
    key: Key,
) -> Result<bool, Abrupt<S::Held>>
    requires number { node < length (S.view store.now).nodes }
    requires key { S.key_of store.now name.now ≡ Some key }
    ensures { Gives S.Store store.now store.now as_is result (has_own_named node name.now) }
{
    if is_special(store.kind(node), name) {
        return Err(Abrupt::Stopped(Stop::NotInProfile));
    }
    Ok(is_length(store, node, name) || is_size(node, name) || store.own(node, key).is_some())
}
