//! What parts tokens: line ends and comments.

ghost use Rattle.std.specs.Prelude.{◌≡◌, ◌+◌, ◌^◌, ◌<◌, ◌≤◌, length, IfOk};
ghost use Rattle.std.specs.List.{list_any};
ghost use Rattle.spec_tokens.specs.Byte.{is_line_end};
ghost use Rattle.spec_tokens.specs.Gap.{line_end_len, comment_end, comment_kind, block_comment, line_comment};

use crate::byte::{behind, is_line_end, is_source, line_len};
use spec_tokens::{LexFault, Piece, PieceKind};

/// How many bytes the line end at the front has: CR LF is one.
#[tactic(auto, unfolding(spec_tokens::specs::Gap::line_end_len))]
pub fn line_end_len(bytes: &[u8]) -> u32
    requires { 0 < length bytes.now }
    ensures exact { result ≡ line_end_len bytes.now }
    ensures within { (0 < result) × (result ≤ length bytes.now) }
{
    if bytes.starts_with(b"\r\n") { 2 } else { 1 }
}

/// The end of a block comment that starts at a place, whose next bytes stand at a place.
fn comment_end(bytes: &[u8], start: u32, at: u32) -> Result<u32, LexFault>
    requires { at + length bytes.now < 2 ^ 32 }
    ensures exact { result ≡ comment_end start at bytes.now }
    ensures within { IfOk result (λ end. (at < end) × (end ≤ at + length bytes.now)) }
{
    let mut rest = bytes;
    let mut place = at;
    while !rest.is_empty() {
        if rest.starts_with(b"*/") {
            return Ok(place + 2);
        }
        if !is_source(rest[0]) {
            return Err(LexFault::BadByte(place));
        }
        rest = behind(rest, 1);
        place += 1;
    }
    Err(LexFault::Unclosed(start))
}

/// The text holds a line end.
fn holds_line_end(text: &[u8]) -> bool
    ensures { result ≡ list_any is_line_end text.now }
{
    text.iter().any(|byte| is_line_end(*byte))
}

/// A comment that holds a line end counts as one.
#[tactic(auto, unfolding(spec_tokens::specs::Gap::comment_kind))]
fn comment_kind(text: &[u8]) -> PieceKind
    ensures { result ≡ comment_kind text.now }
{
    if holds_line_end(text) {
        PieceKind::LineEnd
    } else {
        PieceKind::Blank
    }
}

/// The block comment at the front.
#[tactic(auto, unfolding(spec_tokens::specs::Gap::block_comment))]
pub fn block_comment(bytes: &[u8], at: u32) -> Result<Piece, LexFault>
    requires some { 2 ≤ length bytes.now }
    requires fits { at + length bytes.now < 2 ^ 32 }
    ensures exact { result ≡ block_comment at bytes.now }
    ensures within { IfOk result (λ piece. (at < piece.end) × (piece.end ≤ at + length bytes.now)) }
{
    let end = comment_end(behind(bytes, 2), at, at + 2)?;
    let (text, _) = bytes.split_at((end - at) as usize);
    Ok(Piece {
        kind: comment_kind(text),
        end,
    })
}

/// The comment at the front that runs to the end of its line.
#[tactic(auto, unfolding(spec_tokens::specs::Gap::line_comment))]
pub fn line_comment(bytes: &[u8], at: u32) -> Piece
    requires some { 2 ≤ length bytes.now }
    requires fits { at + length bytes.now < 2 ^ 32 }
    ensures exact { result ≡ line_comment at bytes.now }
    ensures within { (at < result.end) × (result.end ≤ at + length bytes.now) }
{
    Piece {
        kind: PieceKind::Blank,
        end: at + 2 + line_len(behind(bytes, 2)) as u32,
    }
}
