//! Slots of declared names.

ghost use Rattle.std.specs.Prelude.{◌≡◌, ◌∷◌, [], ◌++◌, ◌≢◌, ℕ, map, position, None, Some, Option, OnOk, IfOk, IfErr};
ghost use Rattle.std.specs.Str.{bytes_eq as text_eq};
ghost use Rattle.snap_scope.specs.Faults.{IsTold};
ghost use Rattle.snap_scope.specs.Names.{Adds, all_declared, declared_of, AreNarrow, IsDeclared, IsNarrow};
ghost use Rattle.spec_scopes.specs.Scopes.{slot_of};
ghost use Rattle.spec_scopes.specs.Told.{first_repeat};

use crate::names::Name;
use crate::narrow::narrow;
use crate::slots::Slots;
use snap_text::NoMemory;
use spec_scopes::ScopeFault;
use std::alloc::Global;

// Adds a name, narrowed into the list that is lent, and tells whether it was not there.
fn add(
    alloc: Global,
    name: Name<'_>,
    bytes: &mut Vec<u8>,
    slots: &mut Slots,
) -> Result<bool, NoMemory>
    requires { IsNarrow name.named.now.name }
    ensures { IfOk result (λ is_new. Adds name.entry.named.now.name name.entry.is_constant slots.old is_new slots.new) }
{
    narrow(name.named.name.units(), bytes)?;
    slots.add(alloc, bytes, name.is_constant)
}

fn declare(
    alloc: Global,
    name: Name<'_>,
    bytes: &mut Vec<u8>,
    slots: &mut Slots,
) -> Result<(), ScopeFault>
    requires { IsNarrow name.named.now.name }
    ensures ok { OnOk result (slots.new ≡ slots.old ++ slot_of (declared_of name.entry) ∷ []) }
    ensures apart { OnOk result (position (λ slot. text_eq name.entry.named.now.name slot.name) slots.old ≡ None) }
    ensures err { IfErr result (IsDeclared slots.old (declared_of name.entry)) }
{
    match add(alloc, name, bytes, slots) {
        Ok(is_new) => {
            if is_new {
                Ok(())
            } else {
                Err(ScopeFault::Duplicate(name.named.at))
            }
        }
        Err(NoMemory) => Err(ScopeFault::NoMemory),
    }
}

/// The slots of names, of which no two may be the same.
pub(crate) fn slots_of(alloc: Global, names: &[Name<'_>]) -> Result<Slots, ScopeFault>
    requires { AreNarrow (all_declared names.now) }
    ensures slots { IfOk result (λ slots. slots ≡ map slot_of (all_declared names.now)) }
    ensures apart { OnOk result (first_repeat (all_declared names.now) ≡ None) }
    ensures err { IfErr result (IsTold (first_repeat (all_declared names.now))) }
{
    let mut slots = match Slots::with_room(alloc, names.len()) {
        Ok(slots) => slots,
        Err(_) => return Err(ScopeFault::NoMemory),
    };
    let mut bytes = Vec::new(alloc);
    for name in names {
        match declare(alloc, *name, &mut bytes, &mut slots) {
            Ok(()) => {}
            Err(fault) => return Err(fault),
        }
    }
    Ok(slots)
}
