//! The bytes of a source, by classes, and how many of a class stand at the front.

ghost use Rattle.std.specs.Prelude.{◌≡◌, ◌+◌, ◌≤◌, length, drop};
ghost use Rattle.std.specs.List.{prefix_len};
ghost use Rattle.spec_tokens.specs.Byte.{is_line_end, is_blank, is_in_line, is_source, is_digit, is_start, is_part, is_hex, is_quote, is_printable};

/// LF or CR.
#[tactic(auto, unfolding(spec_tokens::specs::Byte::is_line_end))]
pub fn is_line_end(byte: u8) -> bool
    ensures { result ≡ is_line_end byte }
{
    byte == b'\n' || byte == b'\r'
}

/// A tab or a space.
#[tactic(auto, unfolding(spec_tokens::specs::Byte::is_blank))]
pub fn is_blank(byte: u8) -> bool
    ensures { result ≡ is_blank byte }
{
    byte == b'\t' || byte == b' '
}

/// A byte from the space to the tilde.
#[tactic(auto, unfolding(spec_tokens::specs::Byte::is_printable))]
pub fn is_printable(byte: u8) -> bool
    ensures { result ≡ is_printable byte }
{
    b' ' <= byte && byte <= b'~'
}

/// A byte that may stand in a line.
#[tactic(auto, unfolding(spec_tokens::specs::Byte::is_in_line))]
pub fn is_in_line(byte: u8) -> bool
    ensures { result ≡ is_in_line byte }
{
    byte == b'\t' || (b' ' <= byte && byte <= b'~')
}

/// A byte that may stand in a source.
#[tactic(auto, unfolding(spec_tokens::specs::Byte::is_source))]
pub fn is_source(byte: u8) -> bool
    ensures { result ≡ is_source byte }
{
    is_in_line(byte) || is_line_end(byte)
}

/// A decimal digit.
#[tactic(auto, unfolding(spec_tokens::specs::Byte::is_digit))]
pub fn is_digit(byte: u8) -> bool
    ensures { result ≡ is_digit byte }
{
    b'0' <= byte && byte <= b'9'
}

/// A letter, `_` or `$`.
#[tactic(auto, unfolding(spec_tokens::specs::Byte::is_start))]
pub fn is_start(byte: u8) -> bool
    ensures { result ≡ is_start byte }
{
    (b'a' <= byte && byte <= b'z') || (b'A' <= byte && byte <= b'Z') || byte == b'_' || byte == b'$'
}

/// A letter, a digit, `_` or `$`.
#[tactic(auto, unfolding(spec_tokens::specs::Byte::is_part))]
pub fn is_part(byte: u8) -> bool
    ensures { result ≡ is_part byte }
{
    is_start(byte) || is_digit(byte)
}

/// A hexadecimal digit.
#[tactic(auto, unfolding(spec_tokens::specs::Byte::is_hex))]
pub fn is_hex(byte: u8) -> bool
    ensures { result ≡ is_hex byte }
{
    is_digit(byte) || (b'a' <= byte && byte <= b'f') || (b'A' <= byte && byte <= b'F')
}

/// A single or a double quote.
#[tactic(auto, unfolding(spec_tokens::specs::Byte::is_quote))]
pub fn is_quote(byte: u8) -> bool
    ensures { result ≡ is_quote byte }
{
    byte == b'\'' || byte == b'"'
}

/// How many letters, digits, `_` and `$` stand at the front.
pub fn part_len(bytes: &[u8]) -> usize
    ensures value { result ≡ prefix_len is_part bytes.now }
    ensures within { result ≤ length bytes.now }
{
    for (i, byte) in bytes.iter().enumerate() {
        if !is_part(*byte) {
            return i;
        }
    }
    bytes.len()
}

/// How many decimal digits stand at the front.
pub fn digit_len(bytes: &[u8]) -> usize
    ensures value { result ≡ prefix_len is_digit bytes.now }
    ensures within { result ≤ length bytes.now }
{
    for (i, byte) in bytes.iter().enumerate() {
        if !is_digit(*byte) {
            return i;
        }
    }
    bytes.len()
}

/// How many hexadecimal digits stand at the front.
pub fn hex_len(bytes: &[u8]) -> usize
    ensures value { result ≡ prefix_len is_hex bytes.now }
    ensures within { result ≤ length bytes.now }
{
    for (i, byte) in bytes.iter().enumerate() {
        if !is_hex(*byte) {
            return i;
        }
    }
    bytes.len()
}

/// How many bytes at the front may stand in a line.
pub fn line_len(bytes: &[u8]) -> usize
    ensures value { result ≡ prefix_len is_in_line bytes.now }
    ensures within { result ≤ length bytes.now }
{
    for (i, byte) in bytes.iter().enumerate() {
        if !is_in_line(*byte) {
            return i;
        }
    }
    bytes.len()
}

/// The bytes behind so many.
pub fn behind(bytes: &[u8], count: usize) -> &[u8]
    requires { count ≤ length bytes.now }
    ensures rest { result.now ≡ drop count bytes.now }
    ensures len { length result.now + count ≡ length bytes.now }
{
    let (_, rest) = bytes.split_at(count);
    rest
}
