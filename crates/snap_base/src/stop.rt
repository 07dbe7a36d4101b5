//! Why a run stops.

/// Why a run stops where ECMA-262 would go on, or would give what this profile does not have.
#[derive(Clone, Copy, Debug, PartialEq, Eq)]
pub enum Stop {
    /// A number would not be an integer from -(2^53 - 1) to 2^53 - 1.
    NotSafeInteger,
    /// ECMA-262 goes on there, and this profile does not.
    NotInProfile,
    /// The next step would pass the budget.
    OutOfSteps,
    /// A statement or expression would stand inside as many as the depth limit.
    TooDeep,
    /// One more node would pass `MOST_PRIVATE_NODES`.
    TooManyNodes,
    /// A text, an array, the properties of a node, a Map or Set, or what is printed would pass its limit.
    TooLong,
}
