//! Sums, products and quotients of safe integers (ECMA-262, 6.1.6.1).

ghost use Rattle.std.specs.Prelude.{◌≡◌, ◌<◌, ◌+ℤ◌, ◌-ℤ◌, ◌*ℤ◌, int_div, unsigned_abs};
ghost use Rattle.spec_values.specs.Conversions.{safe};
ghost use Rattle.spec_values.specs.Operators.{quotient, rest};

use crate::conversions::{Numbers, safe};
use snap_base::Stop;
use snap_graph::Value;

/// `left + right` (6.1.6.1.7)
pub(crate) fn sum(numbers: Numbers) -> Result<Value, Stop>
    ensures { result ≡ safe (numbers.left +ℤ numbers.right) }
{
    safe(numbers.left + numbers.right)
}

/// `left - right` (6.1.6.1.8)
pub(crate) fn difference(numbers: Numbers) -> Result<Value, Stop>
    ensures { result ≡ safe (numbers.left -ℤ numbers.right) }
{
    safe(numbers.left - numbers.right)
}

/// `left * right` (6.1.6.1.4)
pub(crate) fn product(numbers: Numbers) -> Result<Value, Stop>
    ensures { result ≡ safe (numbers.left *ℤ numbers.right) }
{
    match numbers.left.checked_mul(numbers.right) {
        Some(product) => safe(product),
        None => Err(Stop::NotSafeInteger),
    }
}

/// `left / right`, where it leaves no rest (6.1.6.1.5).
pub(crate) fn quotient(numbers: Numbers) -> Result<Value, Stop>
    ensures { result ≡ quotient numbers.left numbers.right }
{
    if numbers.right != 0 && numbers.left % numbers.right == 0 {
        safe(cut_quotient(numbers))
    } else {
        Err(Stop::NotSafeInteger)
    }
}

// The quotient, cut off at its point.
fn cut_quotient(numbers: Numbers) -> i64
    requires { 0 < unsigned_abs numbers.right }
    ensures { result ≡ int_div numbers.left numbers.right }
{
    numbers.left / numbers.right
}

/// `left % right`, which has the sign of `left` (6.1.6.1.6).
pub(crate) fn rest(numbers: Numbers) -> Result<Value, Stop>
    ensures { result ≡ rest numbers.left numbers.right }
{
    if numbers.right == 0 {
        Err(Stop::NotSafeInteger)
    } else {
        safe(numbers.left % numbers.right)
    }
}
