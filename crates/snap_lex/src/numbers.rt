//! Numbers, and what they stand for.

ghost use Rattle.std.specs.Prelude.{◌≡◌, ◌+◌, ◌^◌, ◌<◌, ◌≤◌, ◌≢◌, length, slice_index, true, MatchOption, IfOk, IsTrue};
ghost use Rattle.spec_tokens.specs.Byte.{is_digit, is_hex};
ghost use Rattle.spec_tokens.specs.Number.{digit_value, value_from, is_hexadecimal, is_zero_first, number_len, number_value, largest, is_number_tail, number};

use crate::byte::{behind, digit_len, hex_len, is_hex, is_part};
use spec_tokens::{LexFault, Piece, PieceKind, TokenKind};

/// The largest number that a source may hold, 2^53 - 1.
const LARGEST: u64 = 9_007_199_254_740_991;

/// What a digit stands for, also a hexadecimal one.
#[tactic(auto, unfolding(spec_tokens::specs::Number::digit_value))]
fn digit_value(byte: u8) -> u64
    ensures value { result ≡ digit_value byte }
    ensures small { result < 256 }
{
    if byte >= b'a' {
        u64::from(byte - 87)
    } else if byte >= b'A' {
        u64::from(byte - 55)
    } else {
        u64::from(byte.saturating_sub(b'0'))
    }
}

/// What digits stand for in a base, where that is not above 2^53 - 1.
pub fn value_of(digits: &[u8], base: u64) -> Option<u64>
    requires low { 0 < base }
    requires high { base ≤ 16 }
    ensures { MatchOption result (largest < value_from base 0 digits.now) (λ value. (value ≡ value_from base 0 digits.now) × (value ≤ largest)) }
{
    let mut value: u64 = 0;
    for byte in digits {
        value = value * base + digit_value(*byte);
        if value > LARGEST {
            return None;
        }
    }
    Some(value)
}

/// `0x` or `0X` and a hexadecimal digit stand at the front.
#[tactic(auto, unfolding(spec_tokens::specs::Number::is_hexadecimal))]
fn is_hexadecimal(bytes: &[u8]) -> bool
    ensures value { result ≡ is_hexadecimal bytes.now }
    ensures long { IsTrue result → 2 ≤ length bytes.now }
{
    match bytes {
        [first, second, third, ..] => {
            *first == b'0' && (*second == b'x' || *second == b'X') && is_hex(*third)
        }
        _ => false,
    }
}

/// A 0 stands at the front.
#[tactic(auto, unfolding(spec_tokens::specs::Number::is_zero_first))]
fn is_zero_first(bytes: &[u8]) -> bool
    ensures value { result ≡ is_zero_first bytes.now }
    ensures long { IsTrue result → 1 ≤ length bytes.now }
{
    match bytes {
        [first, ..] => *first == b'0',
        [] => false,
    }
}

/// How many bytes the longest number at the front has.
#[tactic(auto, using(crate::proofs::Runs::run_starts), unfolding(spec_tokens::specs::Number::number_len))]
fn number_len(bytes: &[u8]) -> usize
    ensures value { result ≡ number_len bytes.now }
    ensures within { result ≤ length bytes.now }
    ensures some { 0 < length bytes.now → is_digit (slice_index bytes.now 0) ≡ true → 0 < result }
{
    if is_hexadecimal(bytes) {
        return 2 + hex_len(behind(bytes, 2));
    }
    if is_zero_first(bytes) {
        return 1;
    }
    digit_len(bytes)
}

/// What a number stands for, where that is not above 2^53 - 1.
#[tactic(auto, unfolding(spec_tokens::specs::Number::number_value))]
pub fn safe_number(text: &[u8]) -> Option<u64>
    ensures { MatchOption result (largest < number_value text.now) (λ value. (value ≡ number_value text.now) × (value ≤ largest)) }
{
    if is_hexadecimal(text) {
        value_of(behind(text, 2), 16)
    } else {
        value_of(text, 10)
    }
}

/// What a token that is a number stands for.
pub fn number_of(text: &[u8]) -> u64
    requires { number_value text.now ≤ largest }
    ensures { result ≡ number_value text.now }
{
    safe_number(text).unwrap_or(0)
}

/// A byte stands at the front that may not follow a number.
#[tactic(auto, unfolding(spec_tokens::specs::Number::is_number_tail))]
fn is_number_tail(bytes: &[u8]) -> bool
    ensures { result ≡ is_number_tail bytes.now }
{
    match bytes {
        [first, ..] => is_part(*first) || *first == b'.',
        [] => false,
    }
}

/// The number at the front.
#[tactic(auto, unfolding(spec_tokens::specs::Number::number))]
pub fn number(bytes: &[u8], at: u32) -> Result<Piece, LexFault>
    requires some { 0 < length bytes.now }
    requires starts { is_digit (slice_index bytes.now 0) ≡ true }
    requires fits { at + length bytes.now < 2 ^ 32 }
    ensures exact { result ≡ number at bytes.now }
    ensures within { IfOk result (λ piece. (at < piece.end) × (piece.end ≤ at + length bytes.now)) }
{
    let len = number_len(bytes);
    let (text, behind) = bytes.split_at(len);
    let end = at + len as u32;
    if safe_number(text).is_none() {
        return Err(LexFault::BigLiteral(at));
    }
    if is_number_tail(behind) {
        return Err(LexFault::BadByte(end));
    }
    Ok(Piece {
        kind: PieceKind::Token(TokenKind::Number),
        end,
    })
}
