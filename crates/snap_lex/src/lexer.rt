//! The tokens of a source.

ghost use Rattle.std.specs.Prelude.{◌≡◌, List, ◌+◌, ◌^◌, ◌<◌, ◌≤◌, ◌++◌, length, IfOk, IfErr};
ghost use Rattle.snap_lex.specs.View.{views, Cuts, GivesFault, GivesTokens, IsFaultOf};
ghost use Rattle.spec_tokens.specs.Faults.{HasFault};
ghost use Rattle.spec_tokens.specs.Laws.{AreTokens};
ghost use Rattle.spec_tokens.specs.Tokens.{Lexeme, lexemes_of, newline_behind};

use crate::pieces::piece;
use snap_base::MOST_SOURCE_BYTES;
use spec_tokens::{LexFault, PieceKind, TokenKind};
use std::alloc::Global;

/// A token: the slice of the source that it is.
#[derive(Clone, Copy, Debug)]
pub struct Token<'a> {
    /// What it is.
    pub kind: TokenKind,
    /// Its bytes.
    pub text: &'a [u8],
    /// The place of its first byte in the source.
    pub at: u32,
    /// Whether a line end stands between it and the token before it, or the front of the source.
    pub after_newline: bool,
}

/// Adds the token that a piece is, and tells whether a line end stands behind the last token.
fn add<'a>(
    list: &mut Vec<Token<'a>>,
    kind: PieceKind,
    text: &'a [u8],
    at: u32,
    newline: bool,
) -> Result<bool, LexFault>
    ensures added { IfOk result (λ _. views list.new.items ≡ views list.old.items ++ lexemes_of kind text.now at newline) }
    ensures newline { IfOk result (λ newline_now. newline_now ≡ newline_behind kind newline) }
    ensures memory { IfErr result (λ fault. fault ≡ LexFault.NoMemory) }
{
    match kind {
        PieceKind::Blank => Ok(newline),
        PieceKind::LineEnd => Ok(true),
        PieceKind::Token(kind) => {
            let token = Token {
                kind,
                text,
                at,
                after_newline: newline,
            };
            match list.push(token) {
                Ok(()) => Ok(false),
                Err(_) => Err(LexFault::NoMemory),
            }
        }
    }
}

/// The tokens of a source, or why it has none.
fn read<'a>(alloc: Global, source: &'a [u8]) -> Result<Vec<Token<'a>>, LexFault>
    requires { length source.now ≤ MOST_SOURCE_BYTES }
    ensures exact { Cuts result source.now }
{
    let mut list = Vec::new(alloc);
    let mut rest = source;
    let mut at: u32 = 0;
    let mut newline = false;
    while !rest.is_empty() {
        let piece = piece(rest, at)?;
        let len = piece.end - at;
        let (text, behind) = rest.split_at(len as usize);
        newline = add(&mut list, piece.kind, text, at, newline)?;
        rest = behind;
        at = piece.end;
    }
    Ok(list)
}

/// The tokens of a source, in order, or its fault with the place.
pub fn tokens<'a>(alloc: Global, source: &'a [u8]) -> Result<Vec<Token<'a>>, LexFault>
    requires { length source.now ≤ MOST_SOURCE_BYTES }
    ensures exact { Cuts result source.now }

    // What is answered are the tokens of the source, and these are answered unless memory runs out.
    ensures found { IfOk result (λ list. AreTokens source.now (views list.items)) }
    ensures only { (list : List Lexeme) → AreTokens source.now list → GivesTokens result list }

    // The same of the source's fault.
    ensures refused { IfErr result (λ fault. IsFaultOf source.now fault) }
    ensures told { (fault : LexFault) → HasFault source.now fault → GivesFault result fault }
{
    read(alloc, source)
}
