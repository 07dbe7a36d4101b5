//! Numbers that stand for texts.

ghost use Rattle.std.specs.Prelude.{◌≡◌};

use crate::units::Units;
use std::marker::Model;

/// A number that stands for a text.
#[derive(Clone, Copy, Debug, PartialEq, Eq)]
pub enum Key {
    /// A text of the blob's list of strings, by its number there.
    Ro(u32),
    /// A text in a string cell that isolates share, by the cell's number.
    Shared(u32),
    /// A text of this isolate alone, by its number there.
    Local(u32),
}

/// Keys, each with its text. They are seen as the list of these pairs, in order.
#[derive(Debug, Drop)]
pub struct Texts {
    pairs: Vec<(Key, Units)>,
}

impl Model for Texts {
    ghost use Rattle.std.specs.Prelude.{ℕ, List};
    ghost use Rattle.snap_text.specs.declared.key.Key.{Key};

    ghost Value = { List (Key × List ℕ) };

    ghost view = { λ texts. texts.pairs.items };
}

impl Texts {
    /// These pairs. It takes no memory.
    pub fn from_vec(pairs: Vec<(Key, Units)>) -> Texts
        ensures { result ≡ pairs.items }
    {
        Texts { pairs }
    }

    /// The pairs.
    pub fn pairs(&self) -> &[(Key, Units)]
        ensures { result.now ≡ self.now }
    {
        self.pairs.as_slice()
    }

    /// The pairs, which takes no memory.
    pub fn into_vec(self) -> Vec<(Key, Units)>
        ensures { result.items ≡ self }
    {
        let Texts { pairs } = self;
        pairs
    }
}
