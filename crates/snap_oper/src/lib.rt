//! Operators on values (ECMA-262, 13.5 to 13.12 and 13.15.3).
#![tactic(auto)]

mod arithmetic;
mod bits;
mod comparing;
mod conversions;
mod fault;
mod joining;
mod laws;
mod operators;

pub use conversions::truth_of;
pub use fault::OperFault;
pub use joining::text_of;
pub use laws::values_are_operands;
pub use operators::{binary, unary};
pub use spec_values::{BinaryOp, UnaryOp};
