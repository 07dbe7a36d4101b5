//! Phrases: the nodes of productions, each from its parts, and the table of a script.
#![tactic(auto)]

mod node;
mod numbered;
mod numbered_form;
mod phrase;
mod property;
mod row;
mod statement_node;
mod tree;

pub use node::{
    array_node, arrow_body, arrow_value, assign_node, binary_node, call_node, conditional_node,
    function_value, index_node, leaf, member_node, name_node, new_node, object_node, postfix_node,
    unary_node, update_name, update_node,
};
pub use phrase::{Below, Phrase};
pub use property::{
    with_computed, with_constant, with_name, with_pattern, with_property, with_shorthand,
    with_value,
};
pub use row::{Optional, Row};
pub use statement_node::{
    block_node, const_node, expression_node, for_let_node, for_node, for_of_node, function_node,
    if_else_node, if_node, let_node, return_node, throw_node, try_catch_name_node, try_catch_node,
    try_finally_node, while_node,
};
pub use tree::tree_of;
