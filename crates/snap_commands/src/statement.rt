//! The statements of a thin script.

/// A literal of a script, or a primitive value of a blob.
#[derive(Clone, Copy, Debug, PartialEq, Eq)]
pub enum Literal<'a> {
    /// undefined
    Undefined,
    /// null
    Null,
    /// A truth value.
    Bool(bool),
    /// A safe integer.
    Int(i64),
    /// A text, one byte a unit.
    Text(&'a [u8]),
}

/// A statement of a thin script.
#[derive(Clone, Copy, Debug, PartialEq, Eq)]
pub enum Statement<'a> {
    /// `console.log(L);`
    Log(Literal<'a>),
    /// `console.log(globalThis.NAME);`
    LogGlobal(&'a [u8]),
    /// `globalThis.NAME = L;`
    Assign(&'a [u8], Literal<'a>),
}
