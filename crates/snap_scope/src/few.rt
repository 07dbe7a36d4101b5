//! The first few names of a scope, which are looked at one by one.

ghost use Rattle.std.specs.Prelude.{◌≡◌, ◌+◌, ◌<◌, ◌≤◌, ◌∷◌, [], ◌++◌, take, drop, length, OnOk, OnErr, IfOk};
ghost use Rattle.spec_scopes.specs.Slots.{place_in};

use snap_text::NoMemory;
use spec_scopes::SlotPlace;
use std::alloc::Global;
use std::marker::Model;

/// How many names are looked at one by one.
pub(crate) const FEW: usize = 16;

/// Where the bytes of a name stand, and whether it is a constant.
#[derive(Clone, Copy, Debug)]
pub(crate) struct SlotName {
    /// The place of its first byte.
    pub first: u32,
    /// How many bytes it has.
    pub count: u32,
    /// Whether it is a constant.
    pub is_constant: bool,
}

/// At most 16 names, each with whether it is a constant, in order of declaration. Their bytes stand in one list. They
/// are seen as the list of the slots.
#[derive(Drop)]
pub(crate) struct FewSlots {
    bytes: Vec<u8>,
    names: Vec<SlotName>,
}

impl Model for FewSlots {
    ghost use Rattle.std.specs.Prelude.{List, map, length, ◌≤◌};
    ghost use Rattle.snap_ast.specs.Words.{Each};
    ghost use Rattle.snap_scope.specs.Few.{IsSlotName, slot_at};
    ghost use Rattle.spec_scopes.specs.Scopes.{Slot};

    ghost Value = { List Slot };

    ghost view = { λ slots. map (slot_at slots.bytes.items) slots.names.items };

    ghost invariant = { λ slots. Each (IsSlotName (length slots.bytes.items)) slots.names.items × (length slots.names.items ≤ 16) };
}

fn bytes_of(bytes: &[u8], name: SlotName) -> &[u8]
    requires { name.first + name.count ≤ length bytes.now }
    ensures { result.now ≡ take name.count (drop name.first bytes.now) }
{
    let first = name.first as usize;
    &bytes[first..first + name.count as usize]
}

// A name whose bytes begin at a place. Where that is no 32 bits, the answer is want of memory.
fn slot_name(first: usize, count: usize, is_constant: bool) -> Result<SlotName, NoMemory>
    ensures { IfOk result (λ name. name ≡ record { first = first; count = count; is_constant = is_constant }) }
{
    let Ok(first) = u32::try_from(first) else {
        return Err(NoMemory);
    };
    let Ok(count) = u32::try_from(count) else {
        return Err(NoMemory);
    };
    Ok(SlotName {
        first,
        count,
        is_constant,
    })
}

impl FewSlots {
    /// No names, with room for so many.
    pub fn with_room(alloc: Global, count: usize) -> Result<FewSlots, NoMemory>
        ensures { IfOk result (λ slots. slots ≡ []) }
    {
        let names = Vec::with_capacity(alloc, count)?;
        Ok(FewSlots {
            bytes: Vec::new(alloc),
            names,
        })
    }

    /// How many names there are.
    pub fn len(&self) -> u32
        ensures number { result ≡ length self.now }
        ensures few { length self.now ≤ 16 }
    {
        self.names.len() as u32
    }

    /// The slot of a name, seen from inside the scope.
    pub fn find(&self, name: &[u8]) -> Option<SlotPlace>
        ensures { result ≡ place_in self.now name.now }
    {
        for (slot, named) in self.names.iter().enumerate() {
            if bytes_of(&self.bytes, *named) == name {
                return Some(SlotPlace {
                    hops: 0,
                    slot: slot as u32,
                    constant: named.is_constant,
                });
            }
        }
        None
    }

    /// Adds a name behind the others.
    pub fn add(&mut self, name: &[u8], is_constant: bool) -> Result<(), NoMemory>
        requires { length self.old < 16 }
        ensures ok { OnOk result (self.new ≡ self.old ++ record { name = name.now; is_constant = is_constant } ∷ []) }
        ensures err { OnErr result (self.new ≡ self.old) }
    {
        let named = slot_name(self.bytes.len(), name.len(), is_constant)?;
        self.bytes.extend_from_slice(name)?;
        self.names.push(named)?;
        Ok(())
    }
}
