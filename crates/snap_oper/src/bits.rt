//! Operators on the last 32 bits of integers (ECMA-262, 6.1.6.1).

ghost use Rattle.std.specs.Prelude.{◌≡◌, ◌/◌, ◌^◌, pos};
ghost use Rattle.std.specs.Int.{int_bit_and, int_bit_or, int_bit_xor, int_shl, int_shr, w32};
ghost use Rattle.snap_graph.specs.declared.value.Value.TheVariants.{Int};
ghost use Rattle.spec_values.specs.Conversions.{to_int32, to_uint32};
ghost use Rattle.spec_values.specs.Operators.{inverted, shift_count};

use crate::conversions::{Numbers, to_int32, to_uint32};
use snap_graph::Value;

/// `left & right` (6.1.6.1.17)
pub(crate) fn bit_and(numbers: Numbers) -> Value
    ensures { result ≡ Int (int_bit_and w32 (to_int32 numbers.left) (to_int32 numbers.right)) }
{
    Value::Int(i64::from(to_int32(numbers.left) & to_int32(numbers.right)))
}

/// `left ^ right` (6.1.6.1.18)
pub(crate) fn bit_xor(numbers: Numbers) -> Value
    ensures { result ≡ Int (int_bit_xor w32 (to_int32 numbers.left) (to_int32 numbers.right)) }
{
    Value::Int(i64::from(to_int32(numbers.left) ^ to_int32(numbers.right)))
}

/// `left | right` (6.1.6.1.19)
pub(crate) fn bit_or(numbers: Numbers) -> Value
    ensures { result ≡ Int (int_bit_or w32 (to_int32 numbers.left) (to_int32 numbers.right)) }
{
    Value::Int(i64::from(to_int32(numbers.left) | to_int32(numbers.right)))
}

/// `left << right` (6.1.6.1.9)
pub(crate) fn shift_left(numbers: Numbers) -> Value
    ensures { result ≡ Int (int_shl w32 (to_int32 numbers.left) (shift_count numbers.right)) }
{
    Value::Int(i64::from(to_int32(numbers.left) << shift_count(numbers.right)))
}

/// `left >> right`, which keeps the sign (6.1.6.1.10).
pub(crate) fn shift_right(numbers: Numbers) -> Value
    ensures { result ≡ Int (int_shr (to_int32 numbers.left) (shift_count numbers.right)) }
{
    Value::Int(i64::from(to_int32(numbers.left) >> shift_count(numbers.right)))
}

/// `left >>> right`, which fills with zeros (6.1.6.1.11).
pub(crate) fn shift_right_unsigned(numbers: Numbers) -> Value
    ensures { result ≡ Int (pos (to_uint32 numbers.left / 2 ^ shift_count numbers.right)) }
{
    Value::Int(i64::from(to_uint32(numbers.left) >> shift_count(numbers.right)))
}

/// `~number`, each bit turned (6.1.6.1.2).
pub(crate) fn bit_not(number: i64) -> Value
    ensures { result ≡ Int (inverted (to_int32 number)) }
{
    Value::Int(i64::from(!to_int32(number)))
}

// By how many places a shift goes.
fn shift_count(number: i64) -> u32
    ensures { result ≡ shift_count number }
{
    to_uint32(number) % 32
}
