//! A number as text.

ghost use Rattle.std.specs.Prelude.{◌≡◌, IfOk};
ghost use Rattle.std.specs.Fmt.{signed_decimal};

use crate::no_memory::NoMemory;
use crate::units::{Units, widened};
use std::alloc::Global;

/// The decimal number, or want of memory: a `-` where it is negative, then its digits with no zero
/// in front. It has at most 20 units.
pub fn decimal(alloc: Global, n: i64) -> Result<Units, NoMemory>
    ensures { IfOk result (λ text. text ≡ signed_decimal n) }
{
    let digits = n.to_string(alloc)?;
    widened(alloc, digits.as_bytes())
}
