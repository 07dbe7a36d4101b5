//! The section of the global object, read.

ghost use Rattle.std.specs.Prelude.{◌≡◌, ℕ, ◌<◌, ◌^◌, All, List, ◌++◌, length, map, IfOk, IfSome, IfNone, IsSome, Some};
ghost use Rattle.std.specs.List.{flat_map};
ghost use Rattle.snap_blob.specs.Steps.{pair_of};
ghost use Rattle.snap_graph.specs.declared.value.Property.{Property};
ghost use Rattle.snap_graph.specs.declared.value.Value.{Value};
ghost use Rattle.spec_format.specs.Shapes.{AreLawful};
ghost use Rattle.spec_format.specs.Strings.{IsAscending};
ghost use Rattle.spec_sections.specs.Global.{value_bytes};
ghost use Rattle.spec_sections.specs.Properties.{AreProperties, DenotesGlobal};
ghost use Rattle.snap_ctxfmt.specs.Reading.{end_bytes, front_bytes, Spell};

use crate::fields::{are_left, come_next};
use crate::layout::{END, HEAD};
use crate::shape_keys::keys_of;
use crate::value_reader::read_value;
use snap_base::NoMemory;
use snap_blob::ShapeStep;
use snap_bytes::{Cursor, read_number};
use snap_graph::Property;
use snap_text::Units;
use std::alloc::Global;

/// The properties of the global object, in order, or `None` where the section is not that of a
/// global object with values that it may hold, whose shape is one of these.
pub fn read_global(
    alloc: Global,
    section: &[u8],
    shapes: &[ShapeStep],
    strings: &[Units],
) -> Result<Option<Vec<Property>>, NoMemory>
    requires short { length section.now < 2 ^ 32 }
    requires shapes { AreLawful (length strings.now) (map pair_of shapes.now) }
    requires strings { IsAscending strings.now }
    ensures some { IfOk result (λ read. IfSome read (λ properties.
        DenotesGlobal strings.now (map pair_of shapes.now) section.now properties.items)) }
    ensures none { IfOk result (λ read. IfNone read ((properties : List Property)
        → DenotesGlobal strings.now (map pair_of shapes.now) section.now properties → ⊥)) }
{
    let mut cursor = Cursor::new(section, 0);
    let Some(shape) = read_front(&mut cursor) else {
        return Ok(None);
    };
    if shape > shapes.len() as u64 {
        return Ok(None);
    }
    let names = keys_of(alloc, shapes, shape as usize)?;
    let Some(properties) = read_properties(alloc, &mut cursor, &names, strings)? else {
        return Ok(None);
    };
    if !are_left(&mut cursor, &END) {
        return Ok(None);
    }
    Ok(Some(properties))
}

/// The number of the shape.
fn read_front(cursor: &mut Cursor) -> Option<u64>
    ensures some { IfSome result (λ shape. cursor.old.left ≡ front_bytes shape ++ cursor.new.left) }
    ensures only { (shape : ℕ) (rest : List ℕ) → shape < 2 ^ 64
        → cursor.old.left ≡ front_bytes shape ++ rest → (result ≡ Some shape) × (cursor.new.left ≡ rest) }
{
    if !come_next(cursor, &HEAD) {
        return None;
    }
    read_number(cursor)
}

/// A property for each of the names, which are numbers of strings.
fn read_properties(
    alloc: Global,
    cursor: &mut Cursor,
    names: &[u32],
    strings: &[Units],
) -> Result<Option<Vec<Property>>, NoMemory>
    requires strings { IsAscending strings.now }
    requires names { All (λ name. name < length strings.now) names.now }
    ensures some { IfOk result (λ read. IfSome read (λ properties. AreProperties strings.now names.now properties.items
        × (cursor.old.left ≡ flat_map (value_bytes strings.now) (map (λ p. p.value) properties.items) ++ cursor.new.left))) }
    ensures only { (properties : List Property) (rest : List ℕ) → AreProperties strings.now names.now properties
        → cursor.old.left ≡ flat_map (value_bytes strings.now) (map (λ p. p.value) properties) ++ rest
        → IfOk result (λ read. IsSome read × (cursor.new.left ≡ rest)) }
{
    let mut properties = Vec::new(alloc);
    for name in names {
        let key = &strings[*name as usize];
        let Some(property) = read_property(alloc, cursor, key, strings)? else {
            return Ok(None);
        };
        properties.push(property).map_err(|_| NoMemory)?;
    }
    Ok(Some(properties))
}

/// The property of this key.
fn read_property(
    alloc: Global,
    cursor: &mut Cursor,
    key: &Units,
    strings: &[Units],
) -> Result<Option<Property>, NoMemory>
    requires { IsAscending strings.now }
    ensures key { IfOk result (λ read. IfSome read (λ property. property.key ≡ key.now)) }
    ensures some { IfOk result (λ read. IfSome read (λ property. Spell strings.now cursor.old.left property.value cursor.new.left)) }
    ensures only { (value : Value) (rest : List ℕ) → Spell strings.now cursor.old.left value rest
        → IfOk result (λ read. IsSome read × (cursor.new.left ≡ rest)) }
{
    let Some(value) = read_value(alloc, cursor, strings)? else {
        return Ok(None);
    };
    let key = Units::of(alloc, key.units()).map_err(|_| NoMemory)?;
    Ok(Some(Property { key, value }))
}
