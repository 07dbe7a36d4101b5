//! A varint, read from the front of some bytes.

ghost use Rattle.std.specs.Prelude.{◌≡◌, ℕ, ◌+◌, ◌^◌, ◌<◌, ◌≤◌, List, ◌++◌, length, take, IfOk, IfErr, IfSome, IfNone};
ghost use Rattle.spec_format.specs.Varint.{IsVarint, HasNoLastByte};
ghost use Rattle.snap_bytes.specs.Reading.{IsVarintFault, IsWhole};

use crate::fault::ByteFault;

/// The greatest number that may stand in front of seven more bits.
const MOST_HIGH: u64 = u64::MAX / 128;

/// The number at the front, and the bytes behind it. A fault's place is `at`.
pub fn front_of(bytes: &[u8], at: u32) -> Result<(u64, &[u8]), ByteFault>
    ensures number { IfOk result (λ x. (text : List ℕ) × IsVarint text x.0 × (bytes.now ≡ text ++ x.1.now)) }
    ensures fault { IfErr result (IsVarintFault (record { at = at; left = bytes.now })) }
{
    if let Some(read) = short_front_of(bytes) {
        return Ok(read);
    }
    let Some(last) = last_byte(bytes) else {
        return Err(ByteFault::Truncated(at));
    };
    let (text, rest) = bytes.split_at(last + 1);
    match value_of(text, last) {
        Some(n) => Ok((n, rest)),
        None => Err(ByteFault::BadNumber(at)),
    }
}

/// The same where the number has one byte or two, as nearly all have.
fn short_front_of(bytes: &[u8]) -> Option<(u64, &[u8])>
    ensures { IfSome result (λ x. (text : List ℕ) × IsVarint text x.0 × (bytes.now ≡ text ++ x.1.now)) }
{
    match bytes {
        [only, rest @ ..] if *only < 128 => Some((u64::from(*only), rest)),
        [low, high, rest @ ..] if 0 < *high && *high < 128 => {
            Some((u64::from(*high) * 128 + u64::from(*low - 128), rest))
        }
        _ => None,
    }
}

/// The index of the last byte of the varint at the front.
fn last_byte(bytes: &[u8]) -> Option<usize>
    ensures found { IfSome result (λ last. (last < length bytes.now) × IsWhole (take (last + 1) bytes.now) last) }
    ensures none { IfNone result (HasNoLastByte bytes.now) }
{
    for (i, byte) in bytes.iter().enumerate() {
        if *byte < 128 {
            return Some(i);
        }
    }
    None
}

/// The number that the whole text spells, from its last byte to the front.
fn value_of(text: &[u8], last: usize) -> Option<u64>
    requires { IsWhole text.now last }
    ensures found { IfSome result (IsVarint text.now) }
    ensures none { IfNone result ((n : ℕ) → IsVarint text.now n → 2 ^ 64 ≤ n) }
{
    let mut n = u64::from(text[last]);
    for i in (0..last).rev() {
        if n == 0 || n > MOST_HIGH {
            return None;
        }
        n = n * 128 + u64::from(text[i] - 128);
    }
    Some(n)
}
