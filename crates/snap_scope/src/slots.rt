//! The names of a scope with their slots.

ghost use Rattle.std.specs.Prelude.{◌≡◌, [], length, IfOk};
ghost use Rattle.snap_scope.specs.Names.{Adds};
ghost use Rattle.spec_scopes.specs.Slots.{place_in};

use crate::few::{FEW, FewSlots};
use crate::many::ManySlots;
use snap_text::NoMemory;
use spec_scopes::SlotPlace;
use std::alloc::Global;
use std::marker::Model;

/// The names of a scope, each with whether it is a constant, in order of declaration: the first few, and behind them
/// others only where there is no room for more. They are seen as the list of the slots.
#[derive(Drop)]
pub(crate) struct Slots {
    few: FewSlots,
    many: ManySlots,
}

impl Model for Slots {
    ghost use Rattle.std.specs.Prelude.{◌≡◌, [], ◌++◌, List, length, ◌<◌};
    ghost use Rattle.spec_scopes.specs.Scopes.{Slot};

    ghost Value = { List Slot };

    ghost view = { λ slots. slots.few ++ slots.many };

    ghost invariant = { λ slots. length slots.few < 16 → slots.many ≡ [] };
}

impl Slots {
    /// No names, with room for so many.
    pub fn with_room(alloc: Global, count: usize) -> Result<Slots, NoMemory>
        ensures { IfOk result (λ slots. slots ≡ []) }
    {
        let few = FewSlots::with_room(alloc, count.min(FEW))?;
        let many = ManySlots::with_room(alloc, count.saturating_sub(FEW))?;
        Ok(Slots { few, many })
    }

    /// How many names there are.
    pub fn len(&self) -> u32
        ensures { result ≡ length self.now }
    {
        self.few.len() + self.many.len()
    }

    /// The slot of a name, seen from inside the scope.
    pub fn find(&self, name: &[u8]) -> Option<SlotPlace>
        ensures { result ≡ place_in self.now name.now }
    {
        match self.few.find(name) {
            Some(place) => Some(place),
            None => match self.many.find(name) {
                Some(place) => Some(SlotPlace {
                    hops: place.hops,
                    slot: self.few.len() + place.slot,
                    constant: place.constant,
                }),
                None => None,
            },
        }
    }

    /// Adds a name, and tells whether it was not there. Where 2^32 - 1 names are there, the answer is want of
    /// memory.
    pub fn add(&mut self, alloc: Global, name: &[u8], is_constant: bool) -> Result<bool, NoMemory>
        ensures { IfOk result (λ is_new. Adds name.now is_constant self.old is_new self.new) }
    {
        if self.few.find(name).is_some() {
            return Ok(false);
        }
        if self.few.len() < FEW as u32 {
            self.few.add(name, is_constant)?;
            return Ok(true);
        }
        let is_new = self.many.add(alloc, name, is_constant)?;
        Ok(is_new)
    }
}
