//! Keys of texts, whoever gives them out.

ghost use Rattle.std.specs.Prelude.{◌≡◌, ◌↔◌, ℕ, List, Bool, Option, Some, IsTrue, IfOk, OnOk, OnErr};
ghost use Rattle.snap_text.specs.declared.key.Key.{Key};
ghost use Rattle.snap_text.specs.Keys.{HasText, Keeps, logged};

use crate::key::Key;
use crate::no_memory::NoMemory;
use crate::units::Units;

/// Gives each text a key, the same one each time. Equal texts have equal keys, different texts different
/// ones, and a key that was given keeps its text.
pub trait Keys: Drop {
    /// The key of a text, where the text has one by now: from the start, or since `key` gave it.
    ghost key_of: { Self → List ℕ → Option Key };

    /// The texts that were asked for, in order, or `None` where the object does not tell.
    ghost log: { Self → Option (List (List ℕ)) };

    /// Whether a text is left out of the log.
    ghost leaves_out: { Self → List ℕ → Bool };

    /// The key of a text.
    fn key(&mut self, text: &Units) -> Result<Key, NoMemory>
        ensures key { IfOk result (λ key. key_of self.new text.now ≡ Some key) }
        ensures kept { Keeps (key_of self.old) (key_of self.new) }
        ensures ok { OnOk result (log self.new ≡ logged (leaves_out self.old) text.now (log self.old)) }
        ensures err { OnErr result (log self.new ≡ log self.old) }
        ensures left_out { (other : List ℕ) → leaves_out self.new other ≡ leaves_out self.old other };

    /// Counts a use of a key that `key` gave or that was there from the start: the log grows as `key` would have it
    /// grow for the key's text.
    fn used(&mut self, key: Key) -> Result<(), NoMemory>
        requires { HasText (key_of self.old) key }
        ensures kept { Keeps (key_of self.old) (key_of self.new) }
        ensures ok { (text : List ℕ) → key_of self.old text ≡ Some key
            → OnOk result (log self.new ≡ logged (leaves_out self.old) text (log self.old)) }
        ensures err { OnErr result (log self.new ≡ log self.old) }
        ensures left_out { (other : List ℕ) → leaves_out self.new other ≡ leaves_out self.old other };

    /// The text of a key that `key` gave or that was there from the start.
    fn text(&self, key: Key) -> Result<Units, NoMemory>
        requires { HasText (key_of self.now) key }
        ensures { IfOk result (λ text. key_of self.now text ≡ Some key) };

    /// Whether these are the units of the key's text.
    fn same(&self, key: Key, text: &[u16]) -> bool
        requires { HasText (key_of self.now) key }
        ensures { IsTrue result ↔ (key_of self.now text.now ≡ Some key) };

    /// A key stands for one text.
    ghost one_text: { (keys : Self) (key : Key) (text other : List ℕ)
        → key_of keys text ≡ Some key → key_of keys other ≡ Some key → text ≡ other };
}
