//! Keys of the tests' own, generic in nothing, that tell their log.

ghost use Rattle.std.specs.Prelude.{Some, false};
ghost use Rattle.snap_text.specs.OwnKeys.{one_own_text, own_key};

use snap_text::{Key, Keys, NoMemory, OwnKeys, Units};
use std::alloc::Global;

/// Keys, the texts that were asked for, and how often a text was looked up.
#[derive(Drop)]
pub(crate) struct ToldKeys {
    alloc: Global,
    keys: OwnKeys,
    log: Vec<Units>,
    given: Vec<Key>,
}

impl ToldKeys {
    /// Keys that know no text, with nothing in their log.
    pub(crate) fn new(alloc: Global) -> ToldKeys {
        ToldKeys {
            alloc,
            keys: OwnKeys::new(alloc),
            log: Vec::new(alloc),
            given: Vec::new(alloc),
        }
    }

    /// The texts that were asked for, in order.
    pub(crate) fn log(&self) -> &[Units] {
        self.log.as_slice()
    }

    /// The keys that texts were looked up for, in order.
    pub(crate) fn given(&self) -> &[Key] {
        self.given.as_slice()
    }
}

impl Keys for ToldKeys {
    ghost key_of = { λ told. own_key told.keys };

    ghost log = { λ told. Some told.log.items };

    ghost leaves_out = { λ told text. false };

    fn key(&mut self, text: &Units) -> Result<Key, NoMemory> {
        let copy = Units::of(self.alloc, text.units())?;
        let key = self.keys.key(text)?;
        self.given.push(key)?;
        self.log.push(copy)?;
        Ok(key)
    }

    fn used(&mut self, key: Key) -> Result<(), NoMemory> {
        let text = self.keys.text(key)?;
        self.log.push(text)?;
        Ok(())
    }

    fn text(&self, key: Key) -> Result<Units, NoMemory> {
        self.keys.text(key)
    }

    fn same(&self, key: Key, text: &[u16]) -> bool {
        self.keys.same(key, text)
    }

    ghost one_text = { λ told. one_own_text told.keys };
}
