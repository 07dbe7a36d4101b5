//! Laws of varints.

ghost use Rattle.std.specs.Prelude.{◌≡◌, ℕ, ◌<◌, ◌^◌, List, ◌++◌};
ghost use Rattle.spec_format.specs.Varint.{IsVarint, varint};

/// No spelling of a number begins another, and a text spells one number, so what was written is read
/// again, whatever follows it.
pub fn one_varint()
    ensures { (a b x y : List ℕ) (m n : ℕ) → IsVarint a m → IsVarint b n → a ++ x ≡ b ++ y → (a ≡ b) × (m ≡ n) }
{}

/// Every number has a spelling.
pub fn every_number()
    ensures { (n : ℕ) → (text : List ℕ) × IsVarint text n }
{}

/// The text that the definition gives for a number spells it, and no other text does.
pub fn varint_spells()
    ensures spells { (n : ℕ) → n < 2 ^ 64 → IsVarint (varint n) n }
    ensures alone { (text : List ℕ) (n : ℕ) → n < 2 ^ 64 → IsVarint text n → text ≡ varint n }
{}
