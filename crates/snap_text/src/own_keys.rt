//! Keys of one isolate's own.

ghost use Rattle.std.specs.Prelude.{◌≡◌, [], None, Some, false, Contains, IsOk, IfOk, OnErr};
ghost use Rattle.snap_text.specs.Keys.{HasText, Keeps};
ghost use Rattle.snap_text.specs.OwnKeys.{own_key, one_own_text};

use crate::key::Key;
use crate::keys::Keys;
use crate::no_memory::NoMemory;
use crate::units::Units;
use indexmap::IndexSet;
use std::alloc::Global;
use std::marker::Model;

/// Keys that number the texts in the order in which they were first asked for, from 0. They are seen as
/// the list of these texts, and tell no log.
#[derive(Drop)]
pub struct OwnKeys {
    alloc: Global,
    texts: IndexSet<Vec<u16>>,
}

impl Model for OwnKeys {
    ghost use Rattle.std.specs.Prelude.{ℕ, ◌^◌, ◌≤◌, List, map, length};

    ghost Value = { List (List ℕ) };

    ghost view = { λ keys. map (λ text. text.items) keys.texts.keys };

    ghost invariant = { λ keys. length keys.texts.keys ≤ 2 ^ 32 };
}

impl OwnKeys {
    /// Keys that know no text.
    pub fn new(alloc: Global) -> OwnKeys
        ensures { result ≡ [] }
    {
        OwnKeys {
            alloc,
            texts: IndexSet::new(alloc),
        }
    }

    // The units of a key's text.
    fn units_of(&self, key: Key) -> &[u16]
        requires { HasText (own_key self.now) key }
        ensures { own_key self.now result.now ≡ Some key }
    {
        match key {
            Key::Local(number) => self.texts.as_slice()[number as usize].as_slice(),
            Key::Ro(_) | Key::Shared(_) => unreachable!(),
        }
    }
}

impl Keys for OwnKeys {
    ghost key_of = { own_key };

    ghost log = { λ keys. None };

    ghost leaves_out = { λ keys text. false };

    /// A text that was asked for before has its key at once. Where 2^32 texts have one, no other text gets
    /// one, and the answer is want of memory.
    fn key(&mut self, text: &Units) -> Result<Key, NoMemory>
        ensures key { IfOk result (λ key. own_key self.new text.now ≡ Some key) }
        ensures kept { Keeps (own_key self.old) (own_key self.new) }
        ensures known { Contains self.old text.now → IsOk result }
        ensures err { OnErr result (self.new ≡ self.old) }
    {
        if let Some(number) = self.texts.get_index_of(text.units()) {
            return Ok(Key::Local(number as u32));
        }
        let number = self.texts.len();
        if number >= 1 << 32 {
            return Err(NoMemory);
        }
        let text = Vec::from_slice(self.alloc, text.units())?;
        self.texts.insert(text)?;
        Ok(Key::Local(number as u32))
    }

    /// It takes no memory, and there is no log.
    fn used(&mut self, _key: Key) -> Result<(), NoMemory>
        ensures same { self.new ≡ self.old }
        ensures is_ok { IsOk result }
    {
        Ok(())
    }

    fn text(&self, key: Key) -> Result<Units, NoMemory> {
        Units::of(self.alloc, self.units_of(key))
    }

    fn same(&self, key: Key, text: &[u16]) -> bool {
        self.units_of(key) == text
    }

    ghost one_text = { one_own_text };
}
