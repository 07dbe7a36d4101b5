//! Order and sameness of values (ECMA-262, 7.2).

ghost use Rattle.std.specs.Prelude.{◌≡◌};
ghost use Rattle.snap_oper.specs.Given.{IsOperand};
ghost use Rattle.spec_values.specs.Operators.{less, same_value};

use crate::conversions::number_of;
use snap_base::Stop;
use snap_graph::Value;

/// Whether the left value is less (7.2.13, IsLessThan): texts by their units, and otherwise numbers.
pub(crate) fn less(left: &Value, right: &Value) -> Result<bool, Stop>
    requires left { IsOperand left.now }
    requires right { IsOperand right.now }
    ensures { result ≡ less left.now right.now }
{
    if let (Value::Text(left), Value::Text(right)) = (left, right) {
        return Ok(left.units().cmp(right.units()).is_lt());
    }
    let left = number_of(left)?;
    let right = number_of(right)?;
    Ok(left < right)
}

/// Whether the values are the same, which converts neither (7.2.16, IsStrictlyEqual).
pub(crate) fn same(left: &Value, right: &Value) -> bool
    ensures { result ≡ same_value left.now right.now }
{
    match (left, right) {
        (Value::Undefined, Value::Undefined)
        | (Value::Null, Value::Null)
        | (Value::Empty, Value::Empty) => true,
        (Value::Bool(left), Value::Bool(right)) => left == right,
        (Value::Int(left), Value::Int(right)) => left == right,
        (Value::Text(left), Value::Text(right)) => left.units() == right.units(),
        (Value::Node(left), Value::Node(right)) => left == right,
        _ => false,
    }
}
