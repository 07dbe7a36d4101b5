//! What a token is to the grammar.

ghost use Rattle.std.specs.Prelude.{◌≡◌};
ghost use Rattle.std.specs.Str.{bytes_eq};
ghost use Rattle.spec_grammar.specs.Sign.{marks, same_sign, sign_among, sign_of, words};

use snap_lex::TokenKind;
use spec_grammar::Sign;

/// What a mark is.
fn mark_sign(text: &[u8]) -> Sign
    ensures { result ≡ sign_among text.now marks }
{
    match text {
        b"(" => Sign::OpenParen,
        b")" => Sign::CloseParen,
        b"[" => Sign::OpenSquare,
        b"]" => Sign::CloseSquare,
        b"{" => Sign::OpenCurly,
        b"}" => Sign::CloseCurly,
        b"." => Sign::Dot,
        b";" => Sign::Semicolon,
        b"," => Sign::Comma,
        b"=>" => Sign::Arrow,
        b"?" => Sign::Question,
        b":" => Sign::Colon,
        b"=" => Sign::Assign,
        b"+=" => Sign::AddAssign,
        b"-=" => Sign::SubAssign,
        b"*=" => Sign::MulAssign,
        b"/=" => Sign::DivAssign,
        b"%=" => Sign::RemAssign,
        b"<<=" => Sign::ShlAssign,
        b">>=" => Sign::ShrAssign,
        b">>>=" => Sign::UShrAssign,
        b"&=" => Sign::AndAssign,
        b"^=" => Sign::XorAssign,
        b"|=" => Sign::OrAssign,
        b"++" => Sign::Increment,
        b"--" => Sign::Decrement,
        b"||" => Sign::OrOr,
        b"&&" => Sign::AndAnd,
        b"|" => Sign::Or,
        b"^" => Sign::Xor,
        b"&" => Sign::And,
        b"===" => Sign::Same,
        b"!==" => Sign::NotSame,
        b"<" => Sign::Less,
        b">" => Sign::Greater,
        b"<=" => Sign::LessEqual,
        b">=" => Sign::GreaterEqual,
        b"<<" => Sign::Shl,
        b">>" => Sign::Shr,
        b">>>" => Sign::UShr,
        b"+" => Sign::Plus,
        b"-" => Sign::Minus,
        b"*" => Sign::Star,
        b"/" => Sign::Slash,
        b"%" => Sign::Percent,
        b"!" => Sign::Not,
        b"~" => Sign::Tilde,
        _ => Sign::Reserved,
    }
}

/// The text is this word.
fn is(text: &[u8], word: &[u8]) -> bool
    ensures { result ≡ bytes_eq text.now word.now }
{
    text == word
}

/// What a reserved word is.
fn word_sign(text: &[u8]) -> Sign
    ensures { result ≡ sign_among text.now words }
{
    if is(text, b"break") {
        return Sign::Break;
    }
    if is(text, b"catch") {
        return Sign::Catch;
    }
    if is(text, b"const") {
        return Sign::Const;
    }
    if is(text, b"continue") {
        return Sign::Continue;
    }
    if is(text, b"delete") {
        return Sign::Delete;
    }
    if is(text, b"else") {
        return Sign::Else;
    }
    if is(text, b"false") {
        return Sign::False;
    }
    if is(text, b"finally") {
        return Sign::Finally;
    }
    if is(text, b"for") {
        return Sign::For;
    }
    if is(text, b"function") {
        return Sign::Function;
    }
    if is(text, b"if") {
        return Sign::If;
    }
    if is(text, b"let") {
        return Sign::Let;
    }
    if is(text, b"new") {
        return Sign::New;
    }
    if is(text, b"null") {
        return Sign::Null;
    }
    if is(text, b"return") {
        return Sign::Return;
    }
    if is(text, b"throw") {
        return Sign::Throw;
    }
    if is(text, b"true") {
        return Sign::True;
    }
    if is(text, b"try") {
        return Sign::Try;
    }
    if is(text, b"typeof") {
        return Sign::TypeOf;
    }
    if is(text, b"undefined") {
        return Sign::Undefined;
    }
    if is(text, b"while") {
        return Sign::While;
    }
    Sign::Reserved
}

/// What a token of a kind and a spelling is.
#[tactic(auto, unfolding(spec_grammar::specs::Sign::sign_of))]
pub fn sign_of(kind: TokenKind, text: &[u8]) -> Sign
    ensures { result ≡ sign_of kind text.now }
{
    match kind {
        TokenKind::Name => Sign::Name,
        TokenKind::Word => word_sign(text),
        TokenKind::Number => Sign::Number,
        TokenKind::Text => Sign::Text,
        TokenKind::Mark => mark_sign(text),
    }
}

/// The two are the same.
#[tactic(auto, unfolding(spec_grammar::specs::Sign::same_sign))]
pub fn same_sign(sign: Sign, other: Sign) -> bool
    ensures { result ≡ same_sign sign other }
{
    sign == other
}
