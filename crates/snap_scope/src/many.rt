//! Names of a scope behind its first few, in a table.

ghost use Rattle.std.specs.Prelude.{◌≡◌, ◌+◌, ◌<◌, ◌^◌, [], length, IfOk, IfSome};
ghost use Rattle.snap_scope.specs.Names.{Adds};
ghost use Rattle.spec_scopes.specs.Slots.{place_in};

use crate::few::FEW;
use indexmap::IndexMap;
use snap_text::NoMemory;
use spec_scopes::SlotPlace;
use std::alloc::Global;
use std::marker::Model;

/// Names, each with whether it is a constant, in order of declaration. They are seen as the list of the slots.
#[derive(Drop)]
pub(crate) struct ManySlots {
    names: IndexMap<Vec<u8>, bool>,
}

impl Model for ManySlots {
    ghost use Rattle.std.specs.Prelude.{List, map, length, ◌<◌, ◌+◌, ◌^◌};
    ghost use Rattle.spec_scopes.specs.Scopes.{Slot};

    ghost Value = { List Slot };

    ghost view = { λ slots. map (λ entry. record { name = entry.0.items; is_constant = entry.1 }) slots.names.entries };

    ghost invariant = { λ slots. length slots.names.entries + 16 < 2 ^ 32 };
}

impl ManySlots {
    /// No names, with room for so many.
    pub fn with_room(alloc: Global, count: usize) -> Result<ManySlots, NoMemory>
        ensures { IfOk result (λ slots. slots ≡ []) }
    {
        let names = IndexMap::with_capacity(alloc, count)?;
        Ok(ManySlots { names })
    }

    /// How many names there are.
    pub fn len(&self) -> u32
        ensures number { result ≡ length self.now }
        ensures room { length self.now + 16 < 2 ^ 32 }
    {
        self.names.len() as u32
    }

    /// The slot of a name, seen from inside the scope.
    pub fn find(&self, name: &[u8]) -> Option<SlotPlace>
        ensures place { result ≡ place_in self.now name.now }
        ensures room { IfSome result (λ place. place.slot + 16 < 2 ^ 32) }
    {
        match self.names.get_full(name) {
            Some((slot, _, constant)) => Some(SlotPlace {
                hops: 0,
                slot: slot as u32,
                constant: *constant,
            }),
            None => None,
        }
    }

    /// Adds a name, and tells whether it was not there. Where these and the first few are 2^32 - 1, the answer is
    /// want of memory.
    pub fn add(&mut self, alloc: Global, name: &[u8], is_constant: bool) -> Result<bool, NoMemory>
        ensures { IfOk result (λ is_new. Adds name.now is_constant self.old is_new self.new) }
    {
        let count = self.names.len();
        if count >= u32::MAX as usize - FEW {
            return Err(NoMemory);
        }
        let key = Vec::from_slice(alloc, name)?;
        let (slot, _) = self.names.insert_full(key, is_constant)?;
        Ok(slot == count)
    }
}
