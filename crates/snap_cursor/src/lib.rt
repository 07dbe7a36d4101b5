//! A cursor over the tokens of a source, and what productions read that holds no phrase.
#![tactic(auto)]

mod cursor;
mod fault;
mod head;
mod names;
mod operator;
mod part;
mod sign;

pub use cursor::Cursor;
pub use fault::ReadFault;
pub use head::{ArrowHead, OfHead, arrow_head, of_head, parens};
pub use names::{parameters, pattern};
pub use operator::{
    Lead, Sequel, Tail, begins_declaration, is_tail, lead_of, operator_at, sequel_of, tail_of,
    update_of,
};
pub use part::{is_lone_name, is_over, key_at, name, named_at, postfix_at, semicolon, word};
