//! Array indices (ECMA-262, 6.1.7).

ghost use Rattle.std.specs.Prelude.{◌≡◌, ◌<◌, ◌≤◌, None, true, false, IfSome, length};
ghost use Rattle.std.specs.Char.{digit_value};
ghost use Rattle.std.specs.Str.Parse.{AllDigits, digits_value};
ghost use Rattle.snap_graph.specs.OwnKeys.{array_index};
ghost use Rattle.snap_store.specs.Indices.{IsShort};

/// The least number that is no array index.
pub const INDEX_END: u32 = 4_294_967_295;

/// The array index that a text is (ECMA-262, 6.1.7): the number below 2^32 - 1 whose decimal text it is.
pub fn array_index(units: &[u16]) -> Option<u32>
    ensures { result ≡ array_index units.now }
{
    if !is_short(units) {
        return None;
    }
    let number = number_of(units)?;
    if number < u64::from(INDEX_END) {
        Some(number as u32)
    } else {
        None
    }
}

// Whether a text has 1 to 10 units and no zero in front.
fn is_short(units: &[u16]) -> bool
    ensures short { result ≡ true → IsShort units.now }
    ensures other { result ≡ false → IsShort units.now → ⊥ }
{
    match units {
        [] => false,
        [0x30] => true,
        [first, ..] => *first != 0x30 && units.len() <= 10,
    }
}

// The number that digits are, if all units are digits.
fn number_of(units: &[u16]) -> Option<u64>
    requires { length units.now ≤ 10 }
    ensures some { IfSome result (λ number. AllDigits 10 units.now × (number ≡ digits_value 10 units.now)) }
    ensures none { result ≡ None → AllDigits 10 units.now → ⊥ }
{
    let mut number = 0;
    for unit in units {
        number = number * 10 + digit(*unit)?;
    }
    Some(number)
}

// The value of a digit.
fn digit(unit: u16) -> Option<u64>
    ensures some { IfSome result (λ digit. (digit ≡ digit_value unit) × (digit < 10)) }
    ensures none { result ≡ None → digit_value unit < 10 → ⊥ }
{
    if unit < 0x30 || unit > 0x39 {
        None
    } else {
        Some(u64::from(unit - 0x30))
    }
}
