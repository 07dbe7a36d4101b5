//! Texts and their escapes.

ghost use Rattle.std.specs.Prelude.{◌≡◌, ◌+◌, ◌^◌, ◌<◌, ◌≤◌, length, drop, slice_index, IfOk, IfSome};
ghost use Rattle.std.specs.List.{list_all};
ghost use Rattle.spec_tokens.specs.Byte.{is_hex};
ghost use Rattle.spec_tokens.specs.Text.{hex_escape, is_digit_first, single_escape, escape, item_len, text_end, unit_at, units_from, text_units};
ghost use Rattle.spec_tokens.specs.Piece.{text};

use crate::byte::{behind, is_digit, is_hex, is_in_line, is_line_end, is_printable};
use crate::numbers::value_of;
use spec_tokens::{Escape, LexFault, Piece, PieceKind, TokenKind};
use std::alloc::{AllocError, Global};

/// The bytes are hexadecimal digits.
fn are_hex(bytes: &[u8]) -> bool
    ensures { result ≡ list_all is_hex bytes.now }
{
    bytes.iter().all(|byte| is_hex(*byte))
}

/// An escape of some hexadecimal digits.
#[tactic(auto, unfolding(spec_tokens::specs::Text::hex_escape))]
fn hex_escape(bytes: &[u8], count: usize) -> Option<Escape>
    requires { count < 9 }
    ensures value { result ≡ hex_escape count bytes.now }
    ensures within { IfSome result (λ escape. escape.len ≤ length bytes.now + 1) }
{
    if bytes.len() < count {
        return None;
    }
    let (digits, _) = bytes.split_at(count);
    if !are_hex(digits) {
        return None;
    }
    match value_of(digits, 16) {
        Some(unit) if unit < 256 => Some(Escape {
            unit: unit as u8,
            len: count + 1,
        }),
        _ => None,
    }
}

/// A digit stands at the front.
#[tactic(auto, unfolding(spec_tokens::specs::Text::is_digit_first))]
fn is_digit_first(bytes: &[u8]) -> bool
    ensures { result ≡ is_digit_first bytes.now }
{
    match bytes {
        [first, ..] => is_digit(*first),
        [] => false,
    }
}

/// What a byte behind a backslash stands for.
#[tactic(auto, unfolding(spec_tokens::specs::Text::single_escape))]
fn single_escape(byte: u8) -> u8
    ensures { result ≡ single_escape byte }
{
    match byte {
        b'b' => 8,
        b't' => 9,
        b'n' => 10,
        b'v' => 11,
        b'f' => 12,
        b'r' => 13,
        _ => byte,
    }
}

/// The escape that stands behind a backslash.
#[tactic(auto, unfolding(spec_tokens::specs::Text::escape))]
pub fn escape(bytes: &[u8]) -> Option<Escape>
    ensures value { result ≡ escape bytes.now }
    ensures within { IfSome result (λ escape. escape.len ≤ length bytes.now) }
{
    if bytes.is_empty() {
        return None;
    }
    let first = bytes[0];
    let rest = behind(bytes, 1);
    if first == b'x' {
        return hex_escape(rest, 2);
    }
    if first == b'u' {
        return hex_escape(rest, 4);
    }
    if first == b'0' && !is_digit_first(rest) {
        return Some(Escape { unit: 0, len: 1 });
    }
    if is_digit(first) || !is_printable(first) {
        return None;
    }
    Some(Escape {
        unit: single_escape(first),
        len: 1,
    })
}

/// How many bytes the item at the front has, in a text that starts at a place.
#[tactic(auto, unfolding(spec_tokens::specs::Text::item_len))]
fn item_len(bytes: &[u8], start: u32, at: u32) -> Result<usize, LexFault>
    requires { 0 < length bytes.now }
    ensures exact { result ≡ item_len start at bytes.now }
    ensures within { IfOk result (λ len. (0 < len) × (len ≤ length bytes.now)) }
{
    let first = bytes[0];
    if first == b'\\' {
        return match escape(behind(bytes, 1)) {
            Some(escape) => Ok(escape.len + 1),
            None => Err(LexFault::BadByte(at)),
        };
    }
    if is_line_end(first) {
        return Err(LexFault::Unclosed(start));
    }
    if is_in_line(first) {
        return Ok(1);
    }
    Err(LexFault::BadByte(at))
}

/// The end of a text that starts at a place, whose next bytes stand at a place.
fn text_end(bytes: &[u8], quote: u8, start: u32, at: u32) -> Result<u32, LexFault>
    requires { at + length bytes.now < 2 ^ 32 }
    ensures exact { result ≡ text_end quote start 0 at bytes.now }
    ensures within { IfOk result (λ end. (at < end) × (end ≤ at + length bytes.now)) }
{
    let mut rest = bytes;
    let mut place = at;
    while !rest.is_empty() {
        if rest[0] == quote {
            return Ok(place + 1);
        }
        let len = item_len(rest, start, place)?;
        rest = behind(rest, len);
        place += len as u32;
    }
    Err(LexFault::Unclosed(start))
}

/// The text at the front.
#[tactic(auto, unfolding(spec_tokens::specs::Piece::text))]
pub fn text(bytes: &[u8], at: u32) -> Result<Piece, LexFault>
    requires some { 0 < length bytes.now }
    requires fits { at + length bytes.now < 2 ^ 32 }
    ensures exact { result ≡ text at bytes.now }
    ensures within { IfOk result (λ piece. (at < piece.end) × (piece.end ≤ at + length bytes.now)) }
{
    let end = text_end(behind(bytes, 1), bytes[0], at, at + 1)?;
    Ok(Piece {
        kind: PieceKind::Token(TokenKind::Text),
        end,
    })
}

/// The unit at the front of the items of a text, and how many bytes it takes.
#[tactic(auto, unfolding(spec_tokens::specs::Text::unit_at))]
fn unit_at(bytes: &[u8]) -> Option<Escape>
    requires { 0 < length bytes.now }
    ensures value { result ≡ unit_at bytes.now }
    ensures within { IfSome result (λ found. (0 < found.len) × (found.len ≤ length bytes.now)) }
{
    let first = bytes[0];
    if first != b'\\' {
        return Some(Escape {
            unit: first,
            len: 1,
        });
    }
    match escape(behind(bytes, 1)) {
        Some(found) => Some(Escape {
            unit: found.unit,
            len: found.len + 1,
        }),
        None => None,
    }
}

/// The units that the items of a text stand for.
fn units_of(alloc: Global, items: &[u8]) -> Result<Vec<u16>, AllocError>
    ensures { IfOk result (λ units. units.items ≡ units_from 0 items.now) }
{
    let mut units = Vec::new(alloc);
    let mut rest = items;
    while !rest.is_empty() {
        match unit_at(rest) {
            None => return Ok(units),
            Some(found) => {
                units.push(u16::from(found.unit))?;
                rest = behind(rest, found.len);
            }
        }
    }
    Ok(units)
}

/// The units that a token that is a text stands for.
#[tactic(auto, unfolding(spec_tokens::specs::Text::text_units))]
pub fn text_units(alloc: Global, text: &[u8]) -> Result<Vec<u16>, AllocError>
    requires { 2 ≤ length text.now }
    ensures { IfOk result (λ units. units.items ≡ text_units text.now) }
{
    let (items, _) = behind(text, 1).split_at(text.len() - 2);
    units_of(alloc, items)
}
