//! Texts of values, and texts joined.

ghost use Rattle.std.specs.Prelude.{◌≡◌};
ghost use Rattle.snap_oper.specs.Given.{Answers};
ghost use Rattle.snap_oper.specs.Texts.{IsText, Spells, is_text, text_in};
ghost use Rattle.spec_values.specs.Conversions.{text_of};
ghost use Rattle.spec_values.specs.Operators.{joined, joined_values};

use crate::fault::OperFault;
use snap_base::{MOST_ITEMS, Stop};
use snap_graph::Value;
use snap_text::{StrView, Units, decimal};
use std::alloc::Global;

/// Whether the value is a text.
pub(crate) fn is_text(value: &Value) -> bool
    ensures { result ≡ is_text value.now }
{
    matches!(value, Value::Text(_))
}

/// The texts of two values, one behind the other (ECMA-262, 13.15.3).
pub(crate) fn join(alloc: Global, left: &Value, right: &Value) -> Result<Value, OperFault>
    ensures { Answers result (joined_values left.now right.now) }
{
    let left = spelled(alloc, left)?;
    let right = spelled(alloc, right)?;
    joined(alloc, left.units(), right.units())
}

// The text of a value.
#[derive(Drop)]
enum SpelledText<'a> {
    // The text that the value is.
    Standing(&'a Units),
    // A text of at most 20 units, made of a value of another kind.
    Made(Units),
}

impl SpelledText<'_> {
    // The text's units.
    fn units(&self) -> &[u16]
        ensures { result.now ≡ text_in self.now }
    {
        match self {
            SpelledText::Standing(text) => text.units(),
            SpelledText::Made(text) => text.units(),
        }
    }
}

// The text of a value (ECMA-262, 7.1.17, ToString). A node has none in this profile.
fn spelled(alloc: Global, value: &Value) -> Result<SpelledText<'_>, OperFault>
    ensures { Spells result (text_of value.now) }
{
    match value {
        Value::Text(text) => Ok(SpelledText::Standing(text)),
        _ => Ok(SpelledText::Made(text_of(alloc, value)?)),
    }
}

/// The text of a value (7.1.17, ToString), copied. A node has none in this profile.
pub fn text_of(alloc: Global, value: &Value) -> Result<Units, OperFault>
    ensures { IsText result (text_of value.now) }
{
    Ok(match value {
        Value::Text(text) => Units::of(alloc, text.units())?,
        Value::Undefined => StrView::One(b"undefined").copy(alloc)?,
        Value::Null => StrView::One(b"null").copy(alloc)?,
        Value::Bool(true) => StrView::One(b"true").copy(alloc)?,
        Value::Bool(false) => StrView::One(b"false").copy(alloc)?,
        Value::Int(number) => decimal(alloc, *number)?,
        Value::Node(_) | Value::Empty => return Err(OperFault::Stopped(Stop::NotInProfile)),
    })
}

// The text of these units, where they are not too many. Memory is taken once, for the whole of it.
fn joined(alloc: Global, left: &[u16], right: &[u16]) -> Result<Value, OperFault>
    ensures { Answers result (joined left.now right.now) }
{
    let length = left.len() + right.len();
    if length > MOST_ITEMS as usize {
        return Err(OperFault::Stopped(Stop::TooLong));
    }
    let mut units = Vec::with_capacity(alloc, length)?;
    units.extend_from_slice(left)?;
    units.extend_from_slice(right)?;
    Ok(Value::Text(Units::from_vec(units)))
}
