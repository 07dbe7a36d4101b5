//! A number, read where its spelling stands next.

ghost use Rattle.std.specs.Prelude.{◌≡◌, ℕ, ◌<◌, ◌^◌, List, ◌++◌, IfSome, IfNone, Some};
ghost use Rattle.spec_format.specs.Varint.{varint};

use crate::cursor::Cursor;

/// The number that is spelled at the front. Where none below 2^64 is, the cursor stays where it was.
pub fn read_number(cursor: &mut Cursor<'_>) -> Option<u64>
    ensures some { IfSome result (λ n. cursor.old.left ≡ varint n ++ cursor.new.left) }
    ensures only { (n : ℕ) (rest : List ℕ) → n < 2 ^ 64
        → cursor.old.left ≡ varint n ++ rest → (result ≡ Some n) × (cursor.new.left ≡ rest) }
    ensures none { IfNone result (cursor.new ≡ cursor.old) }
{
    match cursor.varint() {
        Ok(n) => Some(n),
        Err(_) => None,
    }
}
