//! The piece at the front of what is left of a source.

ghost use Rattle.std.specs.Prelude.{◌≡◌, ◌+◌, ◌^◌, ◌<◌, ◌≤◌, length, IfOk};
ghost use Rattle.spec_tokens.specs.Piece.{plain_piece, piece};

use crate::byte::{is_blank, is_digit, is_line_end, is_quote, is_start};
use crate::gaps::{block_comment, line_comment, line_end_len};
use crate::marks::mark;
use crate::numbers::number;
use crate::texts::text;
use crate::words::word;
use spec_tokens::{LexFault, Piece, PieceKind};

/// The piece at the front that is no comment.
#[tactic(auto, unfolding(spec_tokens::specs::Piece::plain_piece))]
fn plain_piece(bytes: &[u8], at: u32) -> Result<Piece, LexFault>
    requires some { 0 < length bytes.now }
    requires fits { at + length bytes.now < 2 ^ 32 }
    ensures exact { result ≡ plain_piece at bytes.now }
    ensures within { IfOk result (λ piece. (at < piece.end) × (piece.end ≤ at + length bytes.now)) }
{
    let first = bytes[0];
    if is_blank(first) {
        return Ok(Piece {
            kind: PieceKind::Blank,
            end: at + 1,
        });
    }
    if is_line_end(first) {
        return Ok(Piece {
            kind: PieceKind::LineEnd,
            end: at + line_end_len(bytes),
        });
    }
    if is_start(first) {
        return Ok(word(bytes, at));
    }
    if is_digit(first) {
        return number(bytes, at);
    }
    if is_quote(first) {
        return text(bytes, at);
    }
    mark(bytes, at)
}

/// The longest piece at the front, or why there is none.
#[tactic(auto, unfolding(spec_tokens::specs::Piece::piece))]
pub fn piece(bytes: &[u8], at: u32) -> Result<Piece, LexFault>
    requires some { 0 < length bytes.now }
    requires fits { at + length bytes.now < 2 ^ 32 }
    ensures exact { result ≡ piece at bytes.now }
    ensures within { IfOk result (λ piece. (at < piece.end) × (piece.end ≤ at + length bytes.now)) }
{
    if bytes.starts_with(b"//") {
        return Ok(line_comment(bytes, at));
    }
    if bytes.starts_with(b"/*") {
        return block_comment(bytes, at);
    }
    plain_piece(bytes, at)
}
