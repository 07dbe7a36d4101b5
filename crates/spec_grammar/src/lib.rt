//! The grammar of scripts: which trees a list of tokens has.
//! There is no code but the types that the parser and the definitions share.
#![tactic(auto)]

mod laws;
mod rows;
mod sign;
mod start;

pub use laws::{
    deep_are_nested, one_tree, read_are_trees, refused_has_no_tree, syntax_has_no_tree,
    trees_are_lawful, trees_are_read,
};
pub use rows::{
    worked_levels, worked_lists, worked_operators, worked_parentheses, worked_semicolons,
    worked_statements,
};
pub use sign::Sign;
pub use start::Start;
