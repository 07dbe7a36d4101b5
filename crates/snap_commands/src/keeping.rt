//! From the properties of a blob's global object to the globals of a thin blob.

ghost use Rattle.std.specs.Prelude.{◌≡◌, ◌↔◌, ◌++◌, ◌∷◌, [], All, List, length, map, IsTrue, IfOk, MatchOption, OnOk};
ghost use Rattle.spec_format.specs.Number.{AreBytes};
ghost use Rattle.snap_graph.specs.declared.value.Value.{Value};
ghost use Rattle.snap_commands.specs.Globals.{own_of};
ghost use Rattle.snap_commands.specs.Kept.{IsHeld, IsThinProperty, StandsInBlob, global_of, kept_global, kept_globals, kept_value};
ghost use Rattle.snap_commands.specs.Properties.{own, own_properties, properties_of, property_of};
ghost use Rattle.snap_commands.specs.Thin.{Globals};
ghost use Rattle.snap_commands.specs.ThinBlob.{IsPrimitive, IsThinGlobal};

use crate::judge::is_free_name;
use crate::kept::{Kept, KeptValue};
use crate::names::is_name;
use crate::own::OWN;
use snap_base::NoMemory;
use snap_graph::{Property, Value};
use snap_text::{StrView, Units};
use std::alloc::Global;

/// The globals behind the properties that the global object has of its own; none where these do not
/// come first, or a thin script sets no such globals.
pub(crate) fn globals_behind(
    alloc: Global,
    properties: &[Property],
) -> Result<Option<Vec<Kept>>, NoMemory>
    requires { All StandsInBlob properties.now }
    ensures { IfOk result (λ o. MatchOption o
        ((globals : Globals) → properties.now ≡ properties_of globals → All IsThinGlobal globals → ⊥)
        (λ list. (properties.now ≡ properties_of (kept_globals list.items)) × All IsThinGlobal (kept_globals list.items))) }
{
    if properties.len() < OWN.len() {
        return Ok(None);
    }
    let (front, rest) = properties.split_at(OWN.len());
    if !are_own(front, &OWN) {
        return Ok(None);
    }
    globals_of_all(alloc, rest)
}

// Whether the properties are those of a table.
fn are_own(properties: &[Property], table: &[(&str, u32)]) -> bool
    requires { length properties.now ≡ length table.now }
    ensures { IsTrue result ↔ (properties.now ≡ map own_of table.now) }
{
    for (index, (name, node)) in table.iter().enumerate() {
        if !is_own(&properties[index], name, *node) {
            return false;
        }
    }
    true
}

fn is_own(property: &Property, name: &str, node: u32) -> bool
    ensures { IsTrue result ↔ (property.now ≡ own name.now node) }
{
    StrView::One(name.as_bytes()).same(&property.key) && is_node(&property.value, node)
}

fn is_node(value: &Value, node: u32) -> bool
    ensures { IsTrue result ↔ (value.now ≡ Value.Node node) }
{
    match value {
        Value::Node(number) => *number == node,
        _ => false,
    }
}

// A global for each property; none where one is no global of a thin blob.
fn globals_of_all(alloc: Global, properties: &[Property]) -> Result<Option<Vec<Kept>>, NoMemory>
    requires { All StandsInBlob properties.now }
    ensures { IfOk result (λ o. MatchOption o (All IsThinProperty properties.now → ⊥)
        (λ list. (kept_globals list.items ≡ map global_of properties.now) × All IsThinProperty properties.now)) }
{
    let mut list = Vec::new(alloc);
    for property in properties {
        let Some(kept) = kept_property(alloc, property)? else {
            return Ok(None);
        };
        put(&mut list, kept)?;
    }
    Ok(Some(list))
}

fn put(list: &mut Vec<Kept>, kept: Kept) -> Result<(), NoMemory>
    ensures { OnOk result (kept_globals list.new.items ≡ kept_globals list.old.items ++ kept_global kept ∷ []) }
{
    match list.push(kept) {
        Ok(()) => Ok(()),
        Err(_) => Err(NoMemory),
    }
}

// The global that a property is; none where it is none of a thin blob.
fn kept_property(alloc: Global, property: &Property) -> Result<Option<Kept>, NoMemory>
    requires { StandsInBlob property.now }
    ensures { IfOk result (λ o. MatchOption o (IsThinProperty property.now → ⊥)
        (λ k. (kept_global k ≡ global_of property.now) × IsThinProperty property.now)) }
{
    let name = narrowed(alloc, &property.key)?;
    if !is_name(&name) || !is_free_name(&name) {
        return Ok(None);
    }
    let Some(value) = kept_value(alloc, &property.value)? else {
        return Ok(None);
    };
    Ok(Some(Kept { name, value }))
}

// The value, where it is primitive.
fn kept_value(alloc: Global, value: &Value) -> Result<Option<KeptValue>, NoMemory>
    requires { IsHeld value.now }
    ensures { IfOk result (λ o. MatchOption o (IsPrimitive value.now → ⊥)
        (λ k. (kept_value k ≡ value.now) × IsPrimitive value.now)) }
{
    let kept = match value {
        Value::Undefined => KeptValue::Undefined,
        Value::Null => KeptValue::Null,
        Value::Bool(truth) => KeptValue::Bool(*truth),
        Value::Int(number) => KeptValue::Int(*number),
        Value::Text(text) => KeptValue::Text(narrowed(alloc, text)?),
        Value::Node(_) | Value::Empty => return Ok(None),
    };
    Ok(Some(kept))
}

// The bytes that the units of a text are.
fn narrowed(alloc: Global, text: &Units) -> Result<Vec<u8>, NoMemory>
    requires { AreBytes text.now }
    ensures { IfOk result (λ v. v.items ≡ text.now) }
{
    let mut bytes = Vec::new(alloc);
    for unit in text.units() {
        if bytes.push(*unit as u8).is_err() {
            return Err(NoMemory);
        }
    }
    Ok(bytes)
}
