//! A text that owns its code units.

ghost use Rattle.std.specs.Prelude.{◌≡◌, IfOk};

use crate::no_memory::NoMemory;
use std::alloc::Global;
use std::marker::Model;

/// A text. It is seen as the list of its 16-bit code units, in order.
#[derive(Debug, Drop)]
pub struct Units {
    units: Vec<u16>,
}

impl Model for Units {
    ghost use Rattle.std.specs.Prelude.{ℕ, List};

    ghost Value = { List ℕ };

    ghost view = { λ text. text.units.items };
}

impl Units {
    /// The text of these units, or want of memory.
    pub fn of(alloc: Global, units: &[u16]) -> Result<Units, NoMemory>
        ensures { IfOk result (λ text. text ≡ units.now) }
    {
        let units = Vec::from_slice(alloc, units)?;
        Ok(Units { units })
    }

    /// The text's units.
    pub fn units(&self) -> &[u16]
        ensures { result.now ≡ self.now }
    {
        self.units.as_slice()
    }

    /// The text of these units, which takes no memory.
    pub fn from_vec(units: Vec<u16>) -> Units
        ensures { result ≡ units.items }
    {
        Units { units }
    }

    /// The text's units, which takes no memory.
    pub fn into_vec(self) -> Vec<u16>
        ensures { result.items ≡ self }
    {
        let Units { units } = self;
        units
    }
}

// Bytes as units, one byte a unit.
pub(crate) fn widened(alloc: Global, bytes: &[u8]) -> Result<Units, NoMemory>
    ensures { IfOk result (λ text. text ≡ bytes.now) }
{
    let mut units = Vec::with_capacity(alloc, bytes.len())?;
    for byte in bytes {
        units.push(u16::from(*byte))?;
    }
    Ok(Units { units })
}
