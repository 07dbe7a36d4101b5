//! Laws of the keys of shapes.

ghost use Rattle.std.specs.Prelude.{◌≡◌, ℕ, List};
ghost use Rattle.spec_format.specs.Shapes.{HasKeys};

/// A shape has one list of keys at most.
pub fn one_key_list()
    ensures { (shapes : List (ℕ × ℕ)) (shape : ℕ) (one other : List ℕ)
        → HasKeys shapes shape one → HasKeys shapes shape other → one ≡ other }
{}
