//! Numbers and truth values of values (ECMA-262, 7.1).

ghost use Rattle.std.specs.Prelude.{◌≡◌, ◌^◌, ◌<◌, ℤ, pos, unsigned_abs, IfOk, IfErr, Result, Ok, Err};
ghost use Rattle.snap_base.specs.declared.stop.Stop.{Stop};
ghost use Rattle.snap_graph.specs.declared.value.Value.{Value};
ghost use Rattle.snap_oper.specs.Given.{IsOperand};
ghost use Rattle.spec_values.specs.Conversions.{number_of, safe, to_int32, to_uint32, truth_of};
ghost use Rattle.spec_values.specs.Operators.{on_numbers};

use snap_base::Stop;
use snap_graph::Value;

/// The numbers of two values, which are safe integers.
#[derive(Clone, Copy)]
pub(crate) struct Numbers {
    /// That of the value on the left.
    pub left: i64,
    /// That of the value on the right.
    pub right: i64,
    ghost safe_left: { unsigned_abs left < 2 ^ 53 },
    ghost safe_right: { unsigned_abs right < 2 ^ 53 },
}

/// The numbers of two values, or that evaluation stops at the first of them that has none.
pub(crate) fn numbers_of(left: &Value, right: &Value) -> Result<Numbers, Stop>
    requires left { IsOperand left.now }
    requires right { IsOperand right.now }
    ensures ok { IfOk result (λ n. (op : ℤ → ℤ → Result Value Stop)
        → on_numbers op left.now right.now ≡ op n.left n.right) }
    ensures err { IfErr result (λ stop. (op : ℤ → ℤ → Result Value Stop)
        → on_numbers op left.now right.now ≡ Err stop) }
{
    let left = number_of(left)?;
    let right = number_of(right)?;
    Ok(Numbers { left, right })
}

/// The number of a value (7.1.4, ToNumber). A text, a node and undefined have none in this profile.
pub(crate) fn number_of(value: &Value) -> Result<i64, Stop>
    requires { IsOperand value.now }
    ensures number { result ≡ number_of value.now }
    ensures safe { IfOk result (λ z. unsigned_abs z < 2 ^ 53) }
{
    match value {
        Value::Null => Ok(0),
        Value::Bool(truth) => Ok(i64::from(*truth)),
        Value::Int(number) => Ok(*number),
        Value::Undefined | Value::Text(_) | Value::Node(_) | Value::Empty => {
            Err(Stop::NotInProfile)
        }
    }
}

/// The truth value of a value (7.1.2, ToBoolean).
pub fn truth_of(value: &Value) -> bool
    ensures { result ≡ truth_of value.now }
{
    match value {
        Value::Undefined | Value::Null | Value::Empty => false,
        Value::Bool(truth) => *truth,
        Value::Int(number) => *number != 0,
        Value::Text(text) => !text.units().is_empty(),
        Value::Node(_) => true,
    }
}

/// The integer as a value, where it is from -(2^53 - 1) to 2^53 - 1.
pub(crate) fn safe(number: i64) -> Result<Value, Stop>
    ensures { result ≡ safe number }
{
    if number.unsigned_abs() < 1 << 53 {
        Ok(Value::Int(number))
    } else {
        Err(Stop::NotSafeInteger)
    }
}

/// The integer modulo 2^32 (7.1.7, ToUint32).
pub(crate) fn to_uint32(number: i64) -> u32
    ensures { result ≡ to_uint32 number }
{
    number.rem_euclid(1 << 32) as u32
}

/// The integer that is the same modulo 2^32, from -2^31 to 2^31 - 1 (7.1.6, ToInt32).
pub(crate) fn to_int32(number: i64) -> i32
    ensures { result ≡ to_int32 number }
{
    to_uint32(number).cast_signed()
}
