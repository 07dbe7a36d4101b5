//! Values, and properties that hold them.

use snap_text::Units;

/// A value of a script (ECMA-262, ECMAScript language types, without symbols and wide numbers).
#[derive(Debug, Drop)]
pub enum Value {
    /// undefined
    Undefined,
    /// null
    Null,
    /// A truth value.
    Bool(bool),
    /// A safe integer, from -(2^53 - 1) to 2^53 - 1.
    Int(i64),
    /// A text.
    Text(Units),
    /// The number of a node; those below 62 are the intrinsics.
    Node(u32),
    /// The mark of a slot or record that holds no value.
    Empty,
}

/// A property of a node.
#[derive(Debug, Drop)]
pub struct Property {
    /// The key.
    pub key: Units,
    /// What it holds.
    pub value: Value,
}
