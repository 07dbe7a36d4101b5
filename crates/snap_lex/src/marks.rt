//! Marks, the longest first.

ghost use Rattle.std.specs.Prelude.{◌≡◌, ◌+◌, ◌^◌, ◌<◌, ◌≤◌, ◌&&◌, nat_le, take, length, IfOk};
ghost use Rattle.spec_tokens.specs.Mark.{is_mark, mark_len, mark};

use spec_tokens::{LexFault, Piece, PieceKind, TokenKind};

/// The text is a mark.
#[tactic(auto, unfolding(spec_tokens::specs::Mark::is_mark))]
pub fn is_mark(text: &[u8]) -> bool
    ensures { result ≡ is_mark text.now }
{
    match text {
        b">>>="
        | b"==="
        | b"!=="
        | b">>>"
        | b"<<="
        | b">>="
        | b"=>"
        | b"++"
        | b"--"
        | b"+="
        | b"-="
        | b"*="
        | b"/="
        | b"%="
        | b"&="
        | b"|="
        | b"^="
        | b"&&"
        | b"||"
        | b"<<"
        | b">>"
        | b"<="
        | b">="
        | b"{"
        | b"}"
        | b"("
        | b")"
        | b"["
        | b"]"
        | b"."
        | b";"
        | b","
        | b"<"
        | b">"
        | b"+"
        | b"-"
        | b"*"
        | b"/"
        | b"%"
        | b"&"
        | b"|"
        | b"^"
        | b"!"
        | b"~"
        | b"?"
        | b":"
        | b"=" => true,
        _ => false,
    }
}

/// A mark of so many bytes stands at the front.
fn has_mark(bytes: &[u8], len: usize) -> bool
    requires { 0 < len }
    ensures { result ≡ (nat_le len (length bytes.now) && is_mark (take len bytes.now)) }
{
    if bytes.len() < len {
        return false;
    }
    let (text, _) = bytes.split_at(len);
    is_mark(text)
}

/// How many bytes the longest mark at the front has, or 0 where there is none.
#[tactic(auto, unfolding(spec_tokens::specs::Mark::mark_len))]
pub fn mark_len(bytes: &[u8]) -> usize
    ensures value { result ≡ mark_len bytes.now }
    ensures within { result ≤ length bytes.now }
{
    if has_mark(bytes, 4) {
        return 4;
    }
    if has_mark(bytes, 3) {
        return 3;
    }
    if has_mark(bytes, 2) {
        return 2;
    }
    if has_mark(bytes, 1) {
        return 1;
    }
    0
}

/// The mark at the front.
#[tactic(auto, unfolding(spec_tokens::specs::Mark::mark))]
pub fn mark(bytes: &[u8], at: u32) -> Result<Piece, LexFault>
    requires { at + length bytes.now < 2 ^ 32 }
    ensures exact { result ≡ mark at bytes.now }
    ensures within { IfOk result (λ piece. (at < piece.end) × (piece.end ≤ at + length bytes.now)) }
{
    let len = mark_len(bytes);
    if len == 0 {
        return Err(LexFault::BadByte(at));
    }
    Ok(Piece {
        kind: PieceKind::Token(TokenKind::Mark),
        end: at + len as u32,
    })
}
