//! The parser: the tree of a script, or why it has none.
#![tactic(auto)]

mod assignment;
mod binary;
mod branch;
mod call;
mod declaration;
mod fault;
mod for_loop;
mod grammar;
mod group;
mod jump;
mod list;
mod object;
mod parser;
mod primary;
mod reader;
mod starting;
mod statement;
mod try_catch;
mod unary;

pub use fault::SourceFault;
pub use parser::{Parsed, parse, parse_with_tokens};
