//! Where a node has the property of a key.

ghost use Rattle.std.specs.Prelude.{◌≡◌, ◌↔◌, ◌<◌, ℕ, All, IsTrue, List, Some, IfSome, length};
ghost use Rattle.snap_store.specs.Keyed.{IsKeyed};
ghost use Rattle.snap_store.specs.Plain.{IsPlaceOf};
ghost use Rattle.snap_text.specs.Keys.{HasText};

use crate::plain_node::PlainProperty;
use snap_text::{Key, Keys};

// The place of the property of a key.
pub(crate) fn place_of<K: Keys>(keys: &K, key: Key, properties: &[PlainProperty]) -> Option<usize>
    requires key { HasText (K.key_of keys.now) key }
    requires keyed { All (IsKeyed (K.key_of keys.now)) properties.now }
    ensures { (text : List ℕ) → K.key_of keys.now text ≡ Some key → IsPlaceOf text properties.now result }
{
    for (place, property) in properties.iter().enumerate() {
        if is_of(keys, key, property) {
            return Some(place);
        }
    }
    None
}

// Whether a property is that of a key: where its own key is known, the keys tell.
fn is_of<K: Keys>(keys: &K, key: Key, property: &PlainProperty) -> bool
    requires key { HasText (K.key_of keys.now) key }
    requires keyed { IsKeyed (K.key_of keys.now) property.now }
    ensures { (text : List ℕ) → K.key_of keys.now text ≡ Some key → IsTrue result ↔ (property.now.key ≡ text) }
{
    match property.known {
        Some(known) => known == key,
        None => keys.same(key, property.key.units()),
    }
}
