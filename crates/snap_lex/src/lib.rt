//! The lexer: cuts a script into its tokens.
#![tactic(auto)]

mod byte;
mod gaps;
mod lexer;
mod marks;
mod numbers;
mod pieces;
mod texts;
mod words;

pub use byte::{is_part, is_start};
pub use lexer::{Token, tokens};
pub use numbers::{number_of, safe_number};
pub use spec_tokens::{LexFault, TokenKind};
pub use texts::text_units;
pub use words::is_reserved;
