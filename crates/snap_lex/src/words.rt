//! Names and reserved words.

ghost use Rattle.std.specs.Prelude.{◌≡◌, ◌+◌, ◌^◌, ◌<◌, ◌≤◌, length, slice_index, true};
ghost use Rattle.std.specs.List.{list_any};
ghost use Rattle.std.specs.Str.{bytes_eq};
ghost use Rattle.spec_tokens.specs.Byte.{is_start};
ghost use Rattle.spec_tokens.specs.Word.{is_reserved, word_kind, words_a_to_c, words_d_to_ev, words_ex_to_if, words_im_to_ne, words_nu_to_st, words_su_to_ty, words_u_to_y};
ghost use Rattle.spec_tokens.specs.Piece.{word};

use crate::byte::part_len;
use spec_tokens::{Piece, PieceKind, TokenKind};

/// The text is this word.
fn is(text: &[u8], word: &[u8]) -> bool
    ensures { result ≡ bytes_eq text.now word.now }
{
    text == word
}

/// The text is one of the reserved words from `arguments` to `continue`.
fn is_a_to_c(text: &[u8]) -> bool
    ensures { result ≡ list_any (bytes_eq text.now) words_a_to_c }
{
    is(text, b"arguments")
        || is(text, b"await")
        || is(text, b"break")
        || is(text, b"case")
        || is(text, b"catch")
        || is(text, b"class")
        || is(text, b"const")
        || is(text, b"continue")
}

/// The text is one of the reserved words from `debugger` to `eval`.
fn is_d_to_ev(text: &[u8]) -> bool
    ensures { result ≡ list_any (bytes_eq text.now) words_d_to_ev }
{
    is(text, b"debugger")
        || is(text, b"default")
        || is(text, b"delete")
        || is(text, b"do")
        || is(text, b"else")
        || is(text, b"enum")
        || is(text, b"eval")
}

/// The text is one of the reserved words from `export` to `if`.
fn is_ex_to_if(text: &[u8]) -> bool
    ensures { result ≡ list_any (bytes_eq text.now) words_ex_to_if }
{
    is(text, b"export")
        || is(text, b"extends")
        || is(text, b"false")
        || is(text, b"finally")
        || is(text, b"for")
        || is(text, b"function")
        || is(text, b"if")
}

/// The text is one of the reserved words from `implements` to `new`.
fn is_im_to_ne(text: &[u8]) -> bool
    ensures { result ≡ list_any (bytes_eq text.now) words_im_to_ne }
{
    is(text, b"implements")
        || is(text, b"import")
        || is(text, b"in")
        || is(text, b"instanceof")
        || is(text, b"interface")
        || is(text, b"let")
        || is(text, b"new")
}

/// The text is one of the reserved words from `null` to `static`.
fn is_nu_to_st(text: &[u8]) -> bool
    ensures { result ≡ list_any (bytes_eq text.now) words_nu_to_st }
{
    is(text, b"null")
        || is(text, b"package")
        || is(text, b"private")
        || is(text, b"protected")
        || is(text, b"public")
        || is(text, b"return")
        || is(text, b"static")
}

/// The text is one of the reserved words from `super` to `typeof`.
fn is_su_to_ty(text: &[u8]) -> bool
    ensures { result ≡ list_any (bytes_eq text.now) words_su_to_ty }
{
    is(text, b"super")
        || is(text, b"switch")
        || is(text, b"this")
        || is(text, b"throw")
        || is(text, b"true")
        || is(text, b"try")
        || is(text, b"typeof")
}

/// The text is one of the reserved words from `undefined` to `yield`.
fn is_u_to_y(text: &[u8]) -> bool
    ensures { result ≡ list_any (bytes_eq text.now) words_u_to_y }
{
    is(text, b"undefined")
        || is(text, b"var")
        || is(text, b"void")
        || is(text, b"while")
        || is(text, b"with")
        || is(text, b"yield")
}

/// The text is a reserved word.
#[tactic(auto, using(crate::proofs::Reserved::groups_of_reserved))]
pub fn is_reserved(text: &[u8]) -> bool
    ensures { result ≡ is_reserved text.now }
{
    if is_a_to_c(text) {
        return true;
    }
    if is_d_to_ev(text) {
        return true;
    }
    if is_ex_to_if(text) {
        return true;
    }
    if is_im_to_ne(text) {
        return true;
    }
    if is_nu_to_st(text) {
        return true;
    }
    if is_su_to_ty(text) {
        return true;
    }
    is_u_to_y(text)
}

/// What a run of letters, digits, `_` and `$` is.
#[tactic(auto, unfolding(spec_tokens::specs::Word::word_kind))]
fn word_kind(text: &[u8]) -> TokenKind
    ensures { result ≡ word_kind text.now }
{
    if is_reserved(text) {
        TokenKind::Word
    } else {
        TokenKind::Name
    }
}

/// The name or reserved word at the front.
#[tactic(auto, using(crate::proofs::Runs::run_starts), unfolding(spec_tokens::specs::Piece::word, spec_tokens::specs::Byte::is_part))]
pub fn word(bytes: &[u8], at: u32) -> Piece
    requires some { 0 < length bytes.now }
    requires starts { is_start (slice_index bytes.now 0) ≡ true }
    requires fits { at + length bytes.now < 2 ^ 32 }
    ensures exact { result ≡ word at bytes.now }
    ensures within { (at < result.end) × (result.end ≤ at + length bytes.now) }
{
    let len = part_len(bytes);
    let (text, _) = bytes.split_at(len);
    Piece {
        kind: PieceKind::Token(word_kind(text)),
        end: at + len as u32,
    }
}
