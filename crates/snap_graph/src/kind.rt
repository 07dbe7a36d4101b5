//! What a node is.

/// Which declarations a scope holds.
#[derive(Clone, Copy, Debug, PartialEq, Eq)]
pub enum ScopeKind {
    /// Those at the top of a script.
    Script,
    /// The parameters of a function, and those at the top of its body.
    Function,
    /// Those directly in a block.
    Block,
    /// Those in the head of a loop.
    Loop,
    /// The name of a catch.
    Catch,
}

/// What a node is (ECMA-262, 6.1.7: an object of some kind, or a declarative environment record of 9.1.1).
#[derive(Clone, Copy, Debug, PartialEq, Eq)]
pub enum Kind {
    /// An ordinary object.
    Plain,
    /// An array (10.4.2), whose elements are its elements.
    Array,
    /// A function of a script (10.2). Its one element is the scope that it closes over.
    Function {
        /// The number of the script.
        script: u32,
        /// The number of its node in the script's tree.
        tree: u32,
    },
    /// A built-in function (10.3), by its number.
    Native {
        /// An intrinsic's own number, or that of an external function.
        native: u32,
    },
    /// A scope, whose elements are its slots and whose prototype is the scope round it, or null.
    Scope {
        /// Which declarations it holds.
        scope: ScopeKind,
    },
    /// An error object (20.5).
    Error,
    /// A Map (24.1). Its elements are the key and the value of each record in turn.
    Map,
    /// A Set (24.2), whose elements are its records.
    Set,
    /// What stands for a dealing with the outside.
    Resource {
        /// Its number.
        number: u32,
        /// Whether it was closed.
        closed: bool,
    },
}
