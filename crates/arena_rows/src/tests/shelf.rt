//! An arena, and beside it what each text in it must be.

use snap_arena::{Arena, HeldText, JoinFault, TextView};
use snap_text::NoMemory;
use std::alloc::Global;
use std::marker::Model;

// Texts of an arena in the order in which they came, and the units that each must have. It is seen as nothing.
#[derive(Drop)]
pub(crate) struct Shelf {
    alloc: Global,
    arena: Arena,
    texts: Vec<HeldText>,
    wanted: Vec<Vec<u16>>,
}

impl Model for Shelf {
    ghost use Rattle.std.specs.Prelude.{ℕ, All};
    ghost use Rattle.snap_arena.specs.Texts.{IsHeld};

    ghost Value = { ℕ };

    ghost view = { λ shelf. 0 };

    ghost invariant = { λ shelf. All (IsHeld shelf.arena) shelf.texts.items };
}

impl Shelf {
    pub(crate) fn new(alloc: Global) -> Shelf {
        Shelf {
            alloc,
            arena: Arena::new(alloc),
            texts: Vec::new(alloc),
            wanted: Vec::new(alloc),
        }
    }

    pub(crate) fn len(&self) -> usize {
        self.texts.len()
    }

    // How many units a text must have.
    pub(crate) fn length(&self, number: usize) -> usize {
        wanted_at(&self.wanted, number).len()
    }

    // One more text, of these units.
    pub(crate) fn hold(&mut self, units: &[u16]) -> Result<(), NoMemory> {
        let wanted = Vec::from_slice(self.alloc, units)?;
        self.wanted.push(wanted)?;
        let held = self.arena.hold(units)?;
        self.texts.push(held)?;
        Ok(())
    }

    // One more text, of the units of two texts, where there are these two.
    pub(crate) fn join(&mut self, left: usize, right: usize) -> Result<(), JoinFault> {
        if left < self.texts.len() && right < self.texts.len() {
            let held = self.arena.join(self.texts[left], self.texts[right])?;
            let mut wanted = Vec::from_slice(self.alloc, wanted_at(&self.wanted, left))?;
            wanted.extend_from_slice(wanted_at(&self.wanted, right))?;
            self.wanted.push(wanted)?;
            self.texts.push(held)?;
        }
        Ok(())
    }

    // One more text, of the units of a text from one place to another, where there is this text. Places behind its end are its end.
    pub(crate) fn part(&mut self, number: usize, from: u32, to: u32) -> Result<(), NoMemory> {
        if number < self.texts.len() {
            let length = self.arena.view(self.texts[number]).len();
            let to = (to as usize).min(length) as u32;
            let from = from.min(to);
            let held = self.arena.part(self.texts[number], from, to);
            let wanted = part_of(wanted_at(&self.wanted, number), from as usize, to as usize);
            let wanted = Vec::from_slice(self.alloc, wanted)?;
            self.wanted.push(wanted)?;
            self.texts.push(held)?;
        }
        Ok(())
    }

    // Whether each text has the units that it must have.
    pub(crate) fn is_right(&self) -> bool {
        for (number, text) in self.texts.iter().enumerate() {
            let units = self.arena.view(*text);
            if !units.same(&TextView::Wide(wanted_at(&self.wanted, number))) {
                return false;
            }
        }
        true
    }
}

fn wanted_at(wanted: &[Vec<u16>], number: usize) -> &[u16] {
    match wanted.get(number) {
        Some(units) => units.as_slice(),
        None => &[],
    }
}

// The units from one place to another, or none where they do not stand so.
fn part_of(units: &[u16], from: usize, to: usize) -> &[u16] {
    units.get(from..to).unwrap_or(&[])
}
