//! Words for values.

ghost use Rattle.std.specs.Prelude.{◌<◌, ℕ, IfOk};
ghost use Rattle.snap_graph.specs.Values.{IsValue};

use crate::refused::Refused;
use snap_graph::Value;
use snap_text::Units;
use std::alloc::Global;

/// The value of a word. A node is written as # with its number, which is no more than the last.
pub fn value_of(alloc: Global, last: u32, word: &str) -> Result<Value, Refused>
    ensures { (count : ℕ) → last < count → IfOk result (IsValue count) }
{
    match word {
        "undefined" => Ok(Value::Undefined),
        "null" => Ok(Value::Null),
        "true" => Ok(Value::Bool(true)),
        "false" => Ok(Value::Bool(false)),
        _ => match word.strip_prefix('#') {
            Some(number) => node_of(last, number),
            None => number_or_text(alloc, word),
        },
    }
}

// The node of a number, up to the last.
fn node_of(last: u32, word: &str) -> Result<Value, Refused>
    ensures { (count : ℕ) → last < count → IfOk result (IsValue count) }
{
    match word.parse::<u32>() {
        Ok(number) if number <= last => Ok(Value::Node(number)),
        _ => Err(Refused::Row),
    }
}

// The value of a word that is a safe integer or a text.
fn number_or_text(alloc: Global, word: &str) -> Result<Value, Refused>
    ensures { (count : ℕ) → IfOk result (IsValue count) }
{
    match word.strip_prefix('\'') {
        Some(rest) => quoted(alloc, rest),
        None => integer(word),
    }
}

// The safe integer of a word.
fn integer(word: &str) -> Result<Value, Refused>
    ensures { (count : ℕ) → IfOk result (IsValue count) }
{
    match word.parse::<i64>() {
        Ok(number) if number.unsigned_abs() < 1 << 53 => Ok(Value::Int(number)),
        _ => Err(Refused::Row),
    }
}

// The text of a word, behind its first quote.
fn quoted(alloc: Global, rest: &str) -> Result<Value, Refused>
    ensures { (count : ℕ) → IfOk result (IsValue count) }
{
    match rest.strip_suffix('\'') {
        Some(characters) => Ok(Value::Text(text_of(alloc, characters)?)),
        None => Err(Refused::Row),
    }
}

// The text of these characters.
fn text_of(alloc: Global, characters: &str) -> Result<Units, Refused> {
    let mut units = Vec::new(alloc);
    for character in characters.chars() {
        let mut buffer = [0; 2];
        units.extend_from_slice(character.encode_utf16(&mut buffer))?;
    }
    Ok(Units::from_vec(units))
}

/// Whether a value is that of a word. It is not where the word has none.
pub fn is_value_of(alloc: Global, value: &Value, word: &str) -> Result<bool, Refused> {
    match value_of(alloc, u32::MAX, word) {
        Ok(other) => Ok(is_one(value, &other)),
        Err(Refused::Row) => Ok(false),
        Err(why) => Err(why),
    }
}

// Whether two values are one.
fn is_one(value: &Value, other: &Value) -> bool {
    match (value, other) {
        (Value::Undefined, Value::Undefined) | (Value::Null, Value::Null) => true,
        (Value::Bool(truth), Value::Bool(other)) => truth == other,
        (Value::Int(number), Value::Int(other)) => number == other,
        (Value::Text(text), Value::Text(other)) => text.units() == other.units(),
        (Value::Node(node), Value::Node(other)) => node == other,
        _ => false,
    }
}
