//! Kinds of tokens, and the pieces that a source is cut into.

/// The kinds of tokens.
#[derive(Clone, Copy, Debug, PartialEq, Eq)]
pub enum TokenKind {
    /// An identifier: ECMA-262, Names and Keywords.
    Name,
    /// A reserved word: ECMA-262, Keywords and Reserved Words.
    Word,
    /// A numeric literal: ECMA-262, Numeric Literals.
    Number,
    /// A string literal: ECMA-262, String Literals.
    Text,
    /// A punctuator: ECMA-262, Punctuators.
    Mark,
}

/// What a piece of a source is: ECMA-262, ECMAScript Language: Lexical Grammar.
#[derive(Clone, Copy, Debug, PartialEq, Eq)]
pub enum PieceKind {
    /// A blank or a comment that holds no line end.
    Blank,
    /// A line end, or a block comment that holds one.
    LineEnd,
    /// A token.
    Token(TokenKind),
}

/// A piece of a source.
#[derive(Clone, Copy, Debug, PartialEq, Eq)]
pub struct Piece {
    /// What it is.
    pub kind: PieceKind,
    /// The place behind its last byte.
    pub end: u32,
}

/// What stands behind a backslash in a text: ECMA-262, String Literals, EscapeSequence.
#[derive(Clone, Copy, Debug, PartialEq, Eq)]
pub struct Escape {
    /// The unit that it stands for.
    pub unit: u8,
    /// How many bytes it takes behind the backslash.
    pub len: usize,
}
