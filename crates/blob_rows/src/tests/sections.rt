//! Sections, byte by byte.

ghost use Rattle.std.specs.Prelude.{◌≡◌, ℕ, ◌<◌, ◌≤◌, List, ◌∷◌, [], length, map, Contains, IfOk};
ghost use Rattle.snap_blob.specs.Steps.{pair_of};
ghost use Rattle.spec_format.specs.Shapes.{AreLawful};
ghost use Rattle.spec_format.specs.Strings.{IsAscending};
ghost use Rattle.spec_sections.specs.Texts.{HasText};

use snap_blob::ShapeStep;
use snap_ctxfmt::{read_global, write_global};
use snap_graph::{Property, Value};
use snap_text::{NoMemory, Units};
use std::alloc::Global;
use std::test::Fail;

/// 300 strings of one unit each.
fn all_strings(alloc: Global) -> Result<Vec<Units>, NoMemory>
    ensures ascending { IfOk result (λ v. IsAscending v.items) }
    ensures among { IfOk result (λ v. (unit : ℕ) → unit < 300 → Contains v.items (unit ∷ [])) }
    ensures count { IfOk result (λ v. length v.items ≡ 300) }
{
    let mut strings = Vec::new(alloc);
    for unit in 0..300u16 {
        strings.push(Units::of(alloc, &[unit])?)?;
    }
    Ok(strings)
}

/// A value that is no text.
#[derive(Clone, Copy)]
enum Plain {
    Undefined,
    Null,
    Bool(bool),
    Int(i64),
    Node(u32),
    Empty,
}

impl Plain {
    fn value(self) -> Value
        ensures { (strings : List (List ℕ)) → HasText strings result }
    {
        match self {
            Plain::Undefined => Value::Undefined,
            Plain::Null => Value::Null,
            Plain::Bool(truth) => Value::Bool(truth),
            Plain::Int(n) => Value::Int(n),
            Plain::Node(node) => Value::Node(node),
            Plain::Empty => Value::Empty,
        }
    }
}

/// The text of one unit.
fn text_value(alloc: Global, unit: u16) -> Result<Value, NoMemory>
    ensures { (strings : List (List ℕ)) → Contains strings (unit ∷ []) → IfOk result (HasText strings) }
{
    let text = Units::of(alloc, &[unit])?;
    Ok(Value::Text(text))
}

/// A global object with this one value.
fn section_of(alloc: Global, value: Value, strings: &[Units]) -> Result<Vec<u8>, NoMemory>
    requires strings { IsAscending strings.now }
    requires text { HasText strings.now value }
{
    let key = Units::of(alloc, &[])?;
    match write_global(alloc, &[Property { key, value }], strings) {
        Ok(section) => Ok(section),
        Err(_) => Err(NoMemory),
    }
}

#[test]
fn writes_no_properties(rt: HostRuntime) -> Result<(), Fail> {
    let section = write_global(rt.alloc(), &[], &[])?;
    let bytes = [1, 9, 0x10, 0, 7, 0, 0x20, 0, 0, 0, 0, 0];
    assert_eq!(rt; section.as_slice(), bytes.as_slice());
    Ok(())
}

/// Whether these bytes stand for the value, where a global object has no other.
fn is_written(
    alloc: Global,
    value: Value,
    strings: &[Units],
    bytes: &[u8],
) -> Result<bool, NoMemory>
    requires strings { IsAscending strings.now }
    requires text { HasText strings.now value }
{
    let section = section_of(alloc, value, strings)?;
    let front = [1, 9, 0x10, 0, 7, 0, 0x20, 1];
    let Some(behind) = section.as_slice().strip_prefix(front.as_slice()) else {
        return Ok(false);
    };
    Ok(behind.strip_suffix([0; 4].as_slice()) == Some(bytes))
}

/// Values that are no texts, and the bytes that stand for them.
const WRITTEN: [(Plain, &[u8]); 12] = [
    (Plain::Undefined, &[0]),
    (Plain::Null, &[1]),
    (Plain::Bool(false), &[2]),
    (Plain::Bool(true), &[3]),
    (Plain::Empty, &[4]),
    (Plain::Int(0), &[5, 0]),
    (Plain::Int(-1), &[5, 1]),
    (
        Plain::Int(9_007_199_254_740_991),
        &[5, 0xfe, 0xff, 0xff, 0xff, 0xff, 0xff, 0xff, 0x1f],
    ),
    (
        Plain::Int(-9_007_199_254_740_991),
        &[5, 0xfd, 0xff, 0xff, 0xff, 0xff, 0xff, 0xff, 0x1f],
    ),
    (Plain::Node(10), &[7, 10]),
    (Plain::Node(23), &[7, 23]),
    (Plain::Node(62), &[8, 0]),
];

/// The first of them for which others stand.
fn first_miswritten(alloc: Global) -> Result<Option<usize>, NoMemory> {
    let strings = all_strings(alloc)?;
    for (row, (plain, bytes)) in WRITTEN.iter().enumerate() {
        if !is_written(alloc, plain.value(), &strings, bytes)? {
            return Ok(Some(row));
        }
    }
    Ok(None)
}

/// Whether these bytes stand for the text of one unit.
fn is_text_written(alloc: Global, unit: u16, bytes: &[u8]) -> Result<bool, NoMemory>
    requires { unit < 300 }
{
    let strings = all_strings(alloc)?;
    let text = text_value(alloc, unit)?;
    is_written(alloc, text, &strings, bytes)
}

/// Units, and the bytes that stand for the text of each.
const TEXTS: [(u16, &[u8]); 2] = [(0, &[6, 0]), (200, &[6, 0xc8, 1])];

/// The first of them for which others stand.
fn first_text_miswritten(alloc: Global) -> Result<Option<usize>, NoMemory> {
    for (row, (unit, bytes)) in TEXTS.iter().enumerate() {
        if *unit >= 300 || !is_text_written(alloc, *unit, bytes)? {
            return Ok(Some(row));
        }
    }
    Ok(None)
}

#[test]
fn writes_values(rt: HostRuntime) -> Result<(), Fail> {
    assert_eq!(rt; first_miswritten(rt.alloc())?, None);
    assert_eq!(rt; first_text_miswritten(rt.alloc())?, None);
    Ok(())
}

/// Shape 1 has the key of number 1, shape 2 that of number 0, and shape 3 both, 0 first.
fn three_shapes() -> [ShapeStep; 3]
    ensures { (strings : ℕ) → 2 ≤ strings → AreLawful strings (map pair_of result) }
{
    [
        ShapeStep { parent: 0, name: 1 },
        ShapeStep { parent: 0, name: 0 },
        ShapeStep { parent: 2, name: 1 },
    ]
}

/// The properties that are read with these shapes.
fn read(alloc: Global, section: &[u8], strings: &[Units]) -> Result<Option<Vec<Property>>, NoMemory>
    requires strings { IsAscending strings.now }
    requires count { 2 ≤ length strings.now }
    requires short { length section.now < 1000 }
{
    match read_global(alloc, section, &three_shapes(), strings) {
        Ok(properties) => Ok(properties),
        Err(_) => Err(NoMemory),
    }
}

/// Whether two values are the same.
fn are_same(left: &Value, right: &Value) -> bool {
    match (left, right) {
        (Value::Undefined, Value::Undefined) => true,
        (Value::Null, Value::Null) => true,
        (Value::Bool(one), Value::Bool(other)) => one == other,
        (Value::Int(one), Value::Int(other)) => one == other,
        (Value::Text(one), Value::Text(other)) => one.units() == other.units(),
        (Value::Node(one), Value::Node(other)) => one == other,
        _ => false,
    }
}

/// Whether a property of this value is read from what is written of it.
fn is_read_again(alloc: Global, value: Value, strings: &[Units]) -> Result<bool, NoMemory>
    requires strings { IsAscending strings.now }
    requires count { 2 ≤ length strings.now }
    requires text { HasText strings.now value }
{
    let key = Units::of(alloc, &[1])?;
    let given = Property { key, value };
    let given = [given];
    let Ok(section) = write_global(alloc, &given, strings) else {
        return Err(NoMemory);
    };
    if section.len() >= 1000 {
        return Ok(false);
    }
    let Some(properties) = read(alloc, section.as_slice(), strings)? else {
        return Ok(false);
    };
    let [property] = properties.as_slice() else {
        return Ok(false);
    };
    Ok(property.key.units() == [1].as_slice() && are_same(&property.value, &given[0].value))
}

/// Values that are no texts, and that a property may have.
const KEPT: [Plain; 9] = [
    Plain::Undefined,
    Plain::Null,
    Plain::Bool(false),
    Plain::Bool(true),
    Plain::Int(-1),
    Plain::Int(9_007_199_254_740_991),
    Plain::Int(-9_007_199_254_740_991),
    Plain::Node(61),
    Plain::Node(62),
];

/// The first of them that is not read again.
fn first_lost(alloc: Global) -> Result<Option<usize>, NoMemory> {
    let strings = all_strings(alloc)?;
    for (row, plain) in KEPT.iter().enumerate() {
        if !is_read_again(alloc, plain.value(), &strings)? {
            return Ok(Some(row));
        }
    }
    Ok(None)
}

/// Whether a text is read again.
fn is_text_read_again(alloc: Global) -> Result<bool, NoMemory> {
    let strings = all_strings(alloc)?;
    let text = text_value(alloc, 200)?;
    is_read_again(alloc, text, &strings)
}

#[test]
fn values_are_read_again(rt: HostRuntime) -> Result<(), Fail> {
    assert_eq!(rt; first_lost(rt.alloc())?, None);
    assert!(rt; is_text_read_again(rt.alloc())?);
    Ok(())
}

/// A section of shape 3, whose keys are those of number 0 and of number 1.
const TWO_KEYS: [u8; 16] = [1, 9, 0x10, 0, 7, 0, 0x20, 3, 5, 1, 6, 1, 0, 0, 0, 0];

/// Whether these are its properties.
fn are_the_two(properties: &[Property]) -> bool {
    let [first, second] = properties else {
        return false;
    };
    first.key.units() == [0].as_slice()
        && matches!(&first.value, Value::Int(-1))
        && second.key.units() == [1].as_slice()
        && matches!(&second.value, Value::Text(text) if text.units() == [1].as_slice())
}

/// Whether they are read of it.
fn are_the_two_read(alloc: Global) -> Result<bool, NoMemory> {
    let strings = all_strings(alloc)?;
    match read(alloc, &TWO_KEYS, &strings)? {
        Some(properties) => Ok(are_the_two(&properties)),
        None => Ok(false),
    }
}

/// The length of the first part of it that is read.
fn first_part_read(alloc: Global) -> Result<Option<usize>, NoMemory> {
    let strings = all_strings(alloc)?;
    for end in 0..TWO_KEYS.len() {
        if read(alloc, &TWO_KEYS[..end], &strings)?.is_some() {
            return Ok(Some(end));
        }
    }
    Ok(None)
}

#[test]
fn reads_keys_in_order(rt: HostRuntime) -> Result<(), Fail> {
    assert!(rt; are_the_two_read(rt.alloc())?);
    assert_eq!(rt; first_part_read(rt.alloc())?, None);
    Ok(())
}

/// Sections, and whether they are read.
const JUDGED: [(&[u8], bool); 27] = [
    // as it has to be: no properties, then one
    (&[1, 9, 0x10, 0, 7, 0, 0x20, 0, 0, 0, 0, 0], true),
    (&[1, 9, 0x10, 0, 7, 0, 0x20, 1, 0, 0, 0, 0, 0], true),
    // two private nodes
    (&[2, 9, 0x10, 0, 7, 0, 0x20, 1, 0, 0, 0, 0, 0], false),
    // brought in later
    (&[1, 0x0a, 0x10, 0, 7, 0, 0x20, 1, 0, 0, 0, 0, 0], false),
    // an array, a frozen node, another prototype, a table
    (&[1, 9, 0x11, 0, 7, 0, 0x20, 1, 0, 0, 0, 0, 0], false),
    (&[1, 9, 0x10, 1, 7, 0, 0x20, 1, 0, 0, 0, 0, 0], false),
    (&[1, 9, 0x10, 0, 7, 1, 0x20, 1, 0, 0, 0, 0, 0], false),
    (
        &[1, 9, 0x10, 0, 7, 0, 0x21, 1, 0x31, 1, 0, 0, 0, 0, 0, 0],
        false,
    ),
    // no such shape, and more values or fewer than the shape has keys
    (&[1, 9, 0x10, 0, 7, 0, 0x20, 4, 0, 0, 0, 0, 0], false),
    (&[1, 9, 0x10, 0, 7, 0, 0x20, 1, 0, 0, 0, 0, 0, 0], false),
    (&[1, 9, 0x10, 0, 7, 0, 0x20, 3, 0, 0, 0, 0, 0], false),
    // an element, a callback, a main function, its data
    (&[1, 9, 0x10, 0, 7, 0, 0x20, 1, 0, 1, 0, 0, 0, 0], false),
    (&[1, 9, 0x10, 0, 7, 0, 0x20, 1, 0, 0, 1, 0, 0, 0, 0], false),
    (&[1, 9, 0x10, 0, 7, 0, 0x20, 1, 0, 0, 0, 7, 3, 0], false),
    (&[1, 9, 0x10, 0, 7, 0, 0x20, 1, 0, 0, 0, 0, 1], false),
    // numbers in more bytes than they need
    (&[0x81, 0, 9, 0x10, 0, 7, 0, 0x20, 1, 0, 0, 0, 0, 0], false),
    (&[1, 9, 0x10, 0, 7, 0, 0x20, 0x81, 0, 0, 0, 0, 0, 0], false),
    (
        &[1, 9, 0x10, 0, 7, 0, 0x20, 1, 5, 0x82, 0, 0, 0, 0, 0],
        false,
    ),
    // the last string, and one past it
    (
        &[1, 9, 0x10, 0, 7, 0, 0x20, 1, 6, 0xab, 2, 0, 0, 0, 0],
        true,
    ),
    (
        &[1, 9, 0x10, 0, 7, 0, 0x20, 1, 6, 0xac, 2, 0, 0, 0, 0],
        false,
    ),
    // the last intrinsic, the node behind it, and another private node
    (&[1, 9, 0x10, 0, 7, 0, 0x20, 1, 7, 0x3d, 0, 0, 0, 0], true),
    (&[1, 9, 0x10, 0, 7, 0, 0x20, 1, 7, 0x3e, 0, 0, 0, 0], false),
    (&[1, 9, 0x10, 0, 7, 0, 0x20, 1, 8, 1, 0, 0, 0, 0], false),
    // 2^53, and -2^53
    (
        &[
            1, 9, 0x10, 0, 7, 0, 0x20, 1, 5, 0x80, 0x80, 0x80, 0x80, 0x80, 0x80, 0x80, 0x20, 0, 0,
            0, 0,
        ],
        false,
    ),
    (
        &[
            1, 9, 0x10, 0, 7, 0, 0x20, 1, 5, 0xff, 0xff, 0xff, 0xff, 0xff, 0xff, 0xff, 0x1f, 0, 0,
            0, 0,
        ],
        false,
    ),
    // the mark of an empty slot, and a byte that begins no value
    (&[1, 9, 0x10, 0, 7, 0, 0x20, 1, 4, 0, 0, 0, 0], false),
    (&[1, 9, 0x10, 0, 7, 0, 0x20, 1, 9, 0, 0, 0, 0], false),
];

/// The first of them of which the other is true.
fn first_misjudged(alloc: Global) -> Result<Option<usize>, NoMemory> {
    let strings = all_strings(alloc)?;
    for (row, (section, accepted)) in JUDGED.iter().enumerate() {
        if section.len() >= 1000 || read(alloc, section, &strings)?.is_some() != *accepted {
            return Ok(Some(row));
        }
    }
    Ok(None)
}

#[test]
fn other_sections_are_refused(rt: HostRuntime) -> Result<(), Fail> {
    assert_eq!(rt; first_misjudged(rt.alloc())?, None);
    Ok(())
}
