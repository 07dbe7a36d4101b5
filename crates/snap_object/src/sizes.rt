//! `size` of Maps and Sets.

ghost use Rattle.std.specs.Prelude.{◌≡◌, ◌<◌, IfOk, OnOk, count_by, length};
ghost use Rattle.snap_graph.specs.Lawful.{record_keys};
ghost use Rattle.snap_graph.specs.Values.{IsPlace};
ghost use Rattle.snap_action.specs.Gives.{Gives, as_held};
ghost use Rattle.snap_object.specs.Sizes.{TellsWhether, entries_of};
ghost use Rattle.spec_values.specs.Access.{count_value, entry_count, is_there, size_of};
ghost use Rattle.spec_values.specs.Operations.{elements_of, kind_of};

use crate::errors::type_error;
use snap_action::{Abrupt, hold_value, is_text};
use snap_base::{NoMemory, Stop};
use snap_graph::{Kind, Value, intrinsic};
use snap_store::Store;
use std::alloc::Global;

/// The size of a base, read at Map.prototype or at Set.prototype.
pub(crate) fn size_of<S: Store>(
    alloc: Global,
    store: &mut S,
    prototype: u32,
    base: &Value,
) -> Result<S::Held, Abrupt<S::Held>>
    requires { IsPlace (length (S.view store.old).nodes) base.now }
    ensures gives { Gives S.Store store.old store.new (as_held S.Store store.new) result (size_of prototype base.now) }
    ensures view { OnOk result (S.view store.new ≡ S.view store.old) }
{
    match entries_of(store, prototype, base)? {
        Some(count) => hold_count(store, count as usize),
        None => Err(type_error(alloc, store, b"wrong receiver")),
    }
}

/// A number of units, elements or records as a value. One past the safe integers is none in this profile.
pub(crate) fn hold_count<S: Store>(store: &mut S, count: usize) -> Result<S::Held, Abrupt<S::Held>>
    ensures gives { Gives S.Store store.old store.new (as_held S.Store store.new) result (count_value count) }
    ensures view { S.view store.new ≡ S.view store.old }
{
    if count < 9_007_199_254_740_992 {
        hold_value(store, &Value::Int(count as i64))
    } else {
        Err(Abrupt::Stopped(Stop::NotSafeInteger))
    }
}

// How many entries a base has, where it is what the prototype is of.
fn entries_of<S: Store>(store: &S, prototype: u32, base: &Value) -> Result<Option<u32>, NoMemory>
    requires { IsPlace (length (S.view store.now).nodes) base.now }
    ensures { IfOk result (λ count. entries_of (S.view store.now).nodes prototype base.now ≡ count) }
{
    match base {
        Value::Node(node) => entry_count(store, prototype, *node),
        _ => Ok(None),
    }
}

// How many entries a node has, where it is what the prototype is of.
fn entry_count<S: Store>(store: &S, prototype: u32, node: u32) -> Result<Option<u32>, NoMemory>
    requires { node < length (S.view store.now).nodes }
    ensures { IfOk result (λ count. entry_count prototype (kind_of (S.view store.now).nodes node) (elements_of (S.view store.now).nodes node) ≡ count) }
{
    match store.kind(node) {
        Kind::Map if prototype == intrinsic::MAP_PROTOTYPE => Ok(Some(records(store, node)?)),
        Kind::Set if prototype == intrinsic::SET_PROTOTYPE => Ok(Some(members(store, node)?)),
        _ => Ok(None),
    }
}

// How many records of a Map were not removed. Its elements are a key and a value in turn.
fn records<S: Store>(store: &S, node: u32) -> Result<u32, NoMemory>
    requires { node < length (S.view store.now).nodes }
    ensures { IfOk result (λ count. count ≡ count_by is_there (record_keys (elements_of (S.view store.now).nodes node))) }
{
    let mut count = 0;
    for i in 0..store.count(node) / 2 {
        if is_there(store, node, 2 * i)? {
            count += 1;
        }
    }
    Ok(count)
}

// How many members of a Set were not removed.
fn members<S: Store>(store: &S, node: u32) -> Result<u32, NoMemory>
    requires { node < length (S.view store.now).nodes }
    ensures { IfOk result (λ count. count ≡ count_by is_there (elements_of (S.view store.now).nodes node)) }
{
    let mut count = 0;
    for i in 0..store.count(node) {
        if is_there(store, node, i)? {
            count += 1;
        }
    }
    Ok(count)
}

// Whether an element is a value, and not the mark of one that was removed.
fn is_there<S: Store>(store: &S, node: u32, i: u32) -> Result<bool, NoMemory>
    requires number { node < length (S.view store.now).nodes }
    requires place { i < length (elements_of (S.view store.now).nodes node) }
    ensures { IfOk result (λ there. TellsWhether (elements_of (S.view store.now).nodes node) i there) }
{
    let element = store.element(node, i);
    if is_text(store, &element) {
        return Ok(true);
    }
    Ok(!matches!(store.value(&element)?, Value::Empty))
}
