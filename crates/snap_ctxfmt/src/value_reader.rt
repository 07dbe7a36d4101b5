//! Values, read from the front of what is left of a section.

ghost use Rattle.std.specs.Prelude.{◌≡◌, ℕ, ℤ, ◌<◌, ◌≤◌, ◌⊎◌, List, ◌∷◌, IfOk, IfSome, IsSome};
ghost use Rattle.snap_graph.specs.declared.value.Value.{Value};
ghost use Rattle.spec_format.specs.Strings.{IsAscending};
ghost use Rattle.spec_sections.specs.Global.{zigzag};
ghost use Rattle.spec_sections.specs.Properties.{IsSafe};
ghost use Rattle.snap_ctxfmt.specs.Reading.{Spell};

use crate::fields::read_byte;
use crate::layout::{FALSE, INTEGER, NULL, PRIVATE_NODE, READ_ONLY_NODE, TEXT, TRUE, UNDEFINED};
use snap_base::NoMemory;
use snap_bytes::{Cursor, read_number};
use snap_graph::Value;
use snap_graph::intrinsic::GLOBAL_OBJECT;
use snap_text::Units;
use std::alloc::Global;

/// The zigzag number of the greatest safe integer, above which no number is that of a safe one.
const GREATEST: u64 = 18_014_398_509_481_982;

/// The value at the front, or `None` where no value that a global object may hold is spelled there.
pub fn read_value(
    alloc: Global,
    cursor: &mut Cursor,
    strings: &[Units],
) -> Result<Option<Value>, NoMemory>
    requires { IsAscending strings.now }
    ensures some { IfOk result (λ read. IfSome read (λ value. Spell strings.now cursor.old.left value cursor.new.left)) }
    ensures only { (value : Value) (rest : List ℕ) → Spell strings.now cursor.old.left value rest
        → IfOk result (λ read. IsSome read × (cursor.new.left ≡ rest)) }
{
    match read_byte(cursor) {
        Some(tag) => read_tagged(alloc, cursor, tag, strings),
        None => Ok(None),
    }
}

/// The value that begins with this byte.
fn read_tagged(
    alloc: Global,
    cursor: &mut Cursor,
    tag: u8,
    strings: &[Units],
) -> Result<Option<Value>, NoMemory>
    requires { IsAscending strings.now }
    ensures some { IfOk result (λ read. IfSome read (λ value. Spell strings.now (tag ∷ cursor.old.left) value cursor.new.left)) }
    ensures only { (value : Value) (rest : List ℕ) → Spell strings.now (tag ∷ cursor.old.left) value rest
        → IfOk result (λ read. IsSome read × (cursor.new.left ≡ rest)) }
{
    match tag {
        INTEGER => Ok(read_integer(cursor)),
        TEXT => read_text(alloc, cursor, strings),
        READ_ONLY_NODE => Ok(read_intrinsic(cursor)),
        PRIVATE_NODE => Ok(read_global_object(cursor)),
        _ => Ok(constant(tag)),
    }
}

/// The value that is one byte.
fn constant(tag: u8) -> Option<Value>
    ensures some { IfSome result (λ value. (strings : List (List ℕ)) (rest : List ℕ) → Spell strings (tag ∷ rest) value rest) }
    ensures only { (strings : List (List ℕ)) (value : Value) (left rest : List ℕ) → (tag < 5) ⊎ (9 ≤ tag)
        → Spell strings (tag ∷ left) value rest → IsSome result × (left ≡ rest) }
{
    match tag {
        UNDEFINED => Some(Value::Undefined),
        NULL => Some(Value::Null),
        FALSE => Some(Value::Bool(false)),
        TRUE => Some(Value::Bool(true)),
        _ => None,
    }
}

/// A safe integer.
fn read_integer(cursor: &mut Cursor) -> Option<Value>
    ensures some { IfSome result (λ value. (strings : List (List ℕ)) → Spell strings (5 ∷ cursor.old.left) value cursor.new.left) }
    ensures only { (strings : List (List ℕ)) (value : Value) (rest : List ℕ) → Spell strings (5 ∷ cursor.old.left) value rest
        → IsSome result × (cursor.new.left ≡ rest) }
{
    let n = read_number(cursor)?;
    if n > GREATEST {
        return None;
    }
    Some(Value::Int(unzigzag(n)))
}

/// The safe integer that has this zigzag number.
fn unzigzag(n: u64) -> i64
    requires { n ≤ 18014398509481982 }
    ensures number { n ≡ zigzag result }
    ensures safe { IsSafe result }
{
    let half = (n / 2) as i64;
    if n % 2 == 0 { half } else { -half - 1 }
}

/// One of the strings.
fn read_text(
    alloc: Global,
    cursor: &mut Cursor,
    strings: &[Units],
) -> Result<Option<Value>, NoMemory>
    requires { IsAscending strings.now }
    ensures some { IfOk result (λ read. IfSome read (λ value. Spell strings.now (6 ∷ cursor.old.left) value cursor.new.left)) }
    ensures only { (value : Value) (rest : List ℕ) → Spell strings.now (6 ∷ cursor.old.left) value rest
        → IfOk result (λ read. IsSome read × (cursor.new.left ≡ rest)) }
{
    let Some(number) = read_number(cursor) else {
        return Ok(None);
    };
    if number >= strings.len() as u64 {
        return Ok(None);
    }
    let text = Units::of(alloc, strings[number as usize].units()).map_err(|_| NoMemory)?;
    Ok(Some(Value::Text(text)))
}

/// An intrinsic.
fn read_intrinsic(cursor: &mut Cursor) -> Option<Value>
    ensures some { IfSome result (λ value. (strings : List (List ℕ)) → Spell strings (7 ∷ cursor.old.left) value cursor.new.left) }
    ensures only { (strings : List (List ℕ)) (value : Value) (rest : List ℕ) → Spell strings (7 ∷ cursor.old.left) value rest
        → IsSome result × (cursor.new.left ≡ rest) }
{
    let node = read_number(cursor)?;
    if node >= u64::from(GLOBAL_OBJECT) {
        return None;
    }
    Some(Value::Node(node as u32))
}

/// The global object, the one private node.
fn read_global_object(cursor: &mut Cursor) -> Option<Value>
    ensures some { IfSome result (λ value. (strings : List (List ℕ)) → Spell strings (8 ∷ cursor.old.left) value cursor.new.left) }
    ensures only { (strings : List (List ℕ)) (value : Value) (rest : List ℕ) → Spell strings (8 ∷ cursor.old.left) value rest
        → IsSome result × (cursor.new.left ≡ rest) }
{
    if read_number(cursor)? != 0 {
        return None;
    }
    Some(Value::Node(GLOBAL_OBJECT))
}
