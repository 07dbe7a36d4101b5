//! Deleting a property.

ghost use Rattle.std.specs.Prelude.{◌≡◌, ◌<◌, false, None, Some, Err, length};
ghost use Rattle.snap_action.specs.Gives.{Gives, as_is};
ghost use Rattle.snap_action.specs.Names.{IsKnown};
ghost use Rattle.snap_graph.specs.declared.value.Value.TheVariants.{Text};
ghost use Rattle.snap_graph.specs.OwnKeys.{array_index};
ghost use Rattle.snap_graph.specs.Values.{IsPlace};
ghost use Rattle.snap_object.specs.Names.{StaysKnown};
ghost use Rattle.snap_object.specs.Parts.{is_kept, is_outside, outside_unless, without};
ghost use Rattle.spec_values.specs.Access.{delete, delete_named, delete_of_node, element_of};

use crate::errors::type_error;
use crate::indices::element_of;
use crate::names::{name_of, named_key};
use crate::outside::{outside, unspelled};
use crate::texts::{base_of, named_by};
use crate::words::{is_length, is_size, is_special};
use snap_action::{Abrupt, Name};
use snap_base::Stop;
use snap_graph::Value;
use snap_store::Store;
use snap_text::{Key, Units};
use std::alloc::Global;

/// Deletes a property of a base (ECMA-262, 13.5.1), if there is one. The answer is always true.
pub fn delete<S: Store>(
    alloc: Global,
    store: &mut S,
    base: &S::Held,
    key: &Value,
) -> Result<bool, Abrupt<S::Held>>
    requires { S.owns store.old base.now }
    ensures { Gives S.Store store.old store.new as_is result (delete (S.meaning store.old base.now) key.now) }
{
    let base = base_of(alloc, store, base)?;
    match name_of(alloc, key)? {
        Some(mut name) => delete_of(alloc, store, &base, &mut name),
        None => Err(unspelled(alloc, store, &base)),
    }
}

/// Deletes a property of a base by a name: exactly what `delete` does by the name's text.
pub fn delete_by_name<S: Store>(
    alloc: Global,
    store: &mut S,
    base: &S::Held,
    name: &mut Name,
) -> Result<bool, Abrupt<S::Held>>
    requires owned { S.owns store.old base.now }
    requires known { IsKnown (S.key_of store.old) name.old }
    ensures gives { Gives S.Store store.old store.new as_is result (delete (S.meaning store.old base.now) (Text name.old.text)) }
    ensures kept { StaysKnown (S.key_of store.new) name.old name.new }
{
    let base = base_of(alloc, store, base)?;
    delete_of(alloc, store, &base, name)
}

/// Deletes a property of a base by a key that is held: exactly what `delete` does by the key's value. The name is a place to
/// work in, as for `set_by_key`.
pub fn delete_by_key<S: Store>(
    alloc: Global,
    store: &mut S,
    base: &S::Held,
    key: &S::Held,
    name: &mut Name,
) -> Result<bool, Abrupt<S::Held>>
    requires base { S.owns store.old base.now }
    requires key { S.owns store.old key.now }
    ensures { Gives S.Store store.old store.new as_is result (delete (S.meaning store.old base.now) (S.meaning store.old key.now)) }
{
    if named_by(alloc, store, key, name)? {
        return delete_by_name(alloc, store, base, name);
    }
    let key = store.value(key)?;
    delete(alloc, store, base, &key)
}

// Deletes a property of a value.
fn delete_of<S: Store>(
    alloc: Global,
    store: &mut S,
    base: &Value,
    name: &mut Name,
) -> Result<bool, Abrupt<S::Held>>
    requires base { IsPlace (length (S.view store.old).nodes) base.now }
    requires known { IsKnown (S.key_of store.old) name.old }
    ensures gives { Gives S.Store store.old store.new as_is result (delete base.now (Text name.old.text)) }
    ensures kept { StaysKnown (S.key_of store.new) name.old name.new }
{
    match base {
        Value::Undefined | Value::Null => Err(type_error(alloc, store, b"no properties")),
        Value::Bool(_) | Value::Int(_) => Err(outside(store, name)),
        Value::Text(_) => Err(delete_of_text(store, name)),
        Value::Node(node) => delete_of_node(alloc, store, *node, name),
        Value::Empty => Err(Abrupt::Stopped(Stop::NotInProfile)),
    }
}

// Deletes from a text, which is not in this profile. An index is no use of a key.
fn delete_of_text<S: Store>(store: &mut S, name: &mut Name) -> Abrupt<S::Held>
    requires { IsKnown (S.key_of store.old) name.old }
    ensures gives { Gives {R = Unit {0}} S.Store store.old store.new as_is (Err result) (outside_unless (array_index name.old.text) (Text name.old.text)) }
    ensures kept { StaysKnown (S.key_of store.new) name.old name.new }
{
    match name.index() {
        Some(_) => Abrupt::Stopped(Stop::NotInProfile),
        None => outside(store, name),
    }
}

// Deletes a property of a node. An element of an array can't be deleted in this profile.
fn delete_of_node<S: Store>(
    alloc: Global,
    store: &mut S,
    node: u32,
    name: &mut Name,
) -> Result<bool, Abrupt<S::Held>>
    requires number { node < length (S.view store.old).nodes }
    requires known { IsKnown (S.key_of store.old) name.old }
    ensures gives { Gives S.Store store.old store.new as_is result
        (delete_of_node node (Text name.old.text) (element_of (S.view store.old).nodes node (Text name.old.text))) }
    ensures kept { StaysKnown (S.key_of store.new) name.old name.new }
{
    match element_of(store, node, name) {
        Some(_) => Err(Abrupt::Stopped(Stop::NotInProfile)),
        None => named_of_node(alloc, store, node, name),
    }
}

// Deletes a property of a node by a name that is no element's.
fn named_of_node<S: Store>(
    alloc: Global,
    store: &mut S,
    node: u32,
    name: &mut Name,
) -> Result<bool, Abrupt<S::Held>>
    requires number { node < length (S.view store.old).nodes }
    requires known { IsKnown (S.key_of store.old) name.old }
    ensures gives { Gives S.Store store.old store.new as_is result (delete_of_node node (Text name.old.text) None) }
    ensures kept { StaysKnown (S.key_of store.new) name.old name.new }
{
    let key = named_key(store, name)?;
    delete_named(alloc, store, node, name.text(), key)
}

// Deletes a property of a node, where it may be deleted.
fn delete_named<S: Store>(
    alloc: Global,
    store: &mut S,
    node: u32,
    name: &Units,
    key: Key,
) -> Result<bool, Abrupt<S::Held>>
    requires number { node < length (S.view store.old).nodes }
    requires key { S.key_of store.old name.now ≡ Some key }
    ensures { Gives S.Store store.old store.new as_is result (delete_named node name.now) }
{
    if is_outside(store, node, name) {
        return Err(Abrupt::Stopped(Stop::NotInProfile));
    }
    if is_kept(store, node, name, key) {
        return Err(type_error(alloc, store, b"not writable"));
    }
    removed(store, node, name, key)
}

// Whether a name is one that can't be deleted from the node in this profile.
fn is_outside<S: Store>(store: &S, node: u32, name: &Units) -> bool
    requires { node < length (S.view store.now).nodes }
    ensures { result ≡ is_outside (S.view store.now).nodes node name.now }
{
    is_special(store.kind(node), name) || is_length(store, node, name)
}

// Whether a property may not be deleted: `size`, and those that a frozen node has.
fn is_kept<S: Store>(store: &S, node: u32, name: &Units, key: Key) -> bool
    requires number { node < length (S.view store.now).nodes }
    requires key { S.key_of store.now name.now ≡ Some key }
    ensures { result ≡ is_kept (S.view store.now).nodes node name.now }
{
    is_size(node, name) || store.own(node, key).is_some() && store.is_frozen(node)
}

// Removes a property, if there is one.
fn removed<S: Store>(
    store: &mut S,
    node: u32,
    name: &Units,
    key: Key,
) -> Result<bool, Abrupt<S::Held>>
    requires number { node < length (S.view store.old).nodes }
    requires key { S.key_of store.old name.now ≡ Some key }
    requires kept { is_kept (S.view store.old).nodes node name.now ≡ false }
    ensures { Gives S.Store store.old store.new as_is result (without node name.now) }
{
    if store.is_frozen(node) {
        return Ok(true);
    }
    store.remove_own(node, key)?;
    Ok(true)
}
