//! The tokens of a script: what they are, what parts them, and the faults of a source that has none.
//! There is no code but the types that the lexer and the definitions share.
#![tactic(auto)]

mod fault;
mod laws;
mod piece;

pub use fault::LexFault;
pub use laws::{
    faults_are_read, one_fault, one_token_list, one_unit_an_item, read_are_faults, read_are_tokens,
    tokens_are_read, tokens_or_fault,
};
pub use piece::{Escape, Piece, PieceKind, TokenKind};
