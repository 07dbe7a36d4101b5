//! Parts of productions that are no nodes: names with their places, bindings, properties.

use snap_base::Items;
use snap_text::Units;

/// A name that is declared, assigned or updated, and where it stands.
#[derive(Debug, Drop)]
pub struct Named {
    /// The name.
    pub name: Units,
    /// The place of its first byte in the source.
    pub at: u32,
}

/// `Name [= Expr]` in a `let`.
#[derive(Debug, Drop)]
pub struct Binding {
    /// The name that is declared.
    pub name: Named,
    /// The number of the node of its value, where one is written.
    pub value: Option<u32>,
}

/// A declaration of a `const`.
#[derive(Debug, Drop)]
pub enum ConstBinding {
    /// `Name = Expr`
    One {
        /// The name that is declared.
        name: Named,
        /// The number of the node of its value.
        value: u32,
    },
    /// `{ Name (, Name)* [,] } = Expr`
    Pattern {
        /// The names that are declared, one at least, each also the key that is read.
        names: Items<Named>,
        /// The number of the node of the value whose properties are read.
        value: u32,
    },
}

/// The key of a property of an object literal.
#[derive(Debug, Drop)]
pub enum PropertyKey {
    /// A name or a reserved word, also that of a shorthand property.
    Word(Units),
    /// A text.
    Text(Units),
    /// A number, at most 9007199254740991.
    Number(u64),
    /// The number of the node of the expression in brackets.
    Computed(u32),
}

/// A property of an object literal. The value of a shorthand property is the node of its name.
#[derive(Debug, Drop)]
pub struct Property {
    /// The key.
    pub key: PropertyKey,
    /// The number of the node of its value.
    pub value: u32,
}
