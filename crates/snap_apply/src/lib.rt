//! Operators on what a store holds (ECMA-262, 13.5 to 13.12 and 13.15.3), its text, and what is asked of it.
#![tactic(auto)]

mod adding;
mod asking;
mod judging;
mod operators;
mod printing;

pub use adding::spell_held;
pub use asking::{TypeWord, is_callable, type_of};
pub use operators::{apply_binary, apply_unary, is_true};
pub use printing::print_held;
pub use spec_values::{BinaryOp, UnaryOp};
