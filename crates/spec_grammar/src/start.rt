//! Which phrase is read.

/// Which phrase is read.
#[derive(Clone, Copy, Debug, PartialEq, Eq)]
pub enum Start {
    /// A statement.
    Statement,
    /// A block.
    Block,
    /// An expression.
    Expression,
    /// An operand: 0 is a Unary, 1 a Product, and 10 an Or.
    Operand(u8),
    /// What stands behind `new`.
    Member,
}
