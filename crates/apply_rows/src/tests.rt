//! Operators, what is asked of values, and texts that a store holds.

mod asked;
mod operators;
mod texts;
