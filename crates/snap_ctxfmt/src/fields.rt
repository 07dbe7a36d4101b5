//! Fields at the front of what is left of a section.

ghost use Rattle.std.specs.Prelude.{◌≡◌, ℕ, ◌<◌, ◌^◌, ◌↔◌, List, ◌∷◌, ◌++◌, length, IfSome, IsTrue, Some};

use snap_bytes::Cursor;

/// The next byte.
pub fn read_byte(cursor: &mut Cursor) -> Option<u8>
    ensures some { IfSome result (λ byte. cursor.old.left ≡ byte ∷ cursor.new.left) }
    ensures only { (byte : ℕ) (rest : List ℕ)
        → cursor.old.left ≡ byte ∷ rest → (result ≡ Some byte) × (cursor.new.left ≡ rest) }
{
    match cursor.take(1) {
        Ok(field) => Some(field[0]),
        Err(_) => None,
    }
}

/// Whether these bytes come next; they are then read.
pub fn come_next(cursor: &mut Cursor, bytes: &[u8]) -> bool
    requires { length bytes.now < 2 ^ 32 }
    ensures some { IsTrue result → cursor.old.left ≡ bytes.now ++ cursor.new.left }
    ensures only { (rest : List ℕ)
        → cursor.old.left ≡ bytes.now ++ rest → IsTrue result × (cursor.new.left ≡ rest) }
{
    match cursor.take(bytes.len() as u32) {
        Ok(field) => field == bytes,
        Err(_) => false,
    }
}

/// Whether these bytes are all that is left.
pub fn are_left(cursor: &mut Cursor, bytes: &[u8]) -> bool
    ensures { IsTrue result ↔ (cursor.old.left ≡ bytes.now) }
{
    let left = cursor.left();
    match cursor.take(left) {
        Ok(field) => field == bytes,
        Err(_) => false,
    }
}
