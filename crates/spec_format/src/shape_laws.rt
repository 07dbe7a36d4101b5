//! Laws of shapes.

ghost use Rattle.std.specs.Prelude.{◌≢◌, ℕ, ◌<◌, All, AllPairs, List, length};
ghost use Rattle.spec_format.specs.Shapes.{AreLawful, HasKeys, chain_from};

/// Names of strings of which none stands twice make a lawful chain: each shape stands on the one
/// before, and the last has all of them as its keys, in order.
pub fn chain_is_lawful()
    ensures lawful { (strings : ℕ) (names : List ℕ) → All (λ name. name < strings) names
        → AllPairs (λ a b. a ≢ b) names → AreLawful strings (chain_from 0 names) }
    ensures keys { (names : List ℕ) → HasKeys (chain_from 0 names) (length names) names }
{}
