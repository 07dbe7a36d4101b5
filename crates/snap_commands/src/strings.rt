//! The strings of a blob: texts, each once, ascending.

ghost use Rattle.std.specs.Prelude.{◌≡◌, ◌≤◌, ◌++◌, ◌∷◌, [], All, IfOk, OnOk};
ghost use Rattle.spec_format.specs.Number.{AreBytes};
ghost use Rattle.spec_format.specs.Strings.{AreStrings, IsAscending};
ghost use Rattle.snap_commands.specs.Globals.{spelled};
ghost use Rattle.snap_commands.specs.Strings.{AreOf, mass};

use crate::properties::text;
use snap_base::{MOST_ITEMS, NoMemory};
use snap_text::Units;
use std::alloc::Global;
use std::collections::BTreeSet;

/// The texts, each once, ascending by their units.
pub(crate) fn strings(alloc: Global, texts: &[&[u8]]) -> Result<Vec<Units>, NoMemory>
    requires { mass (spelled texts.now) ≤ MOST_ITEMS }
    ensures lawful { IfOk result (λ list. AreStrings list.items) }
    ensures same { IfOk result (λ list. AreOf list.items (spelled texts.now)) }
    ensures light { IfOk result (λ list. mass list.items ≤ mass (spelled texts.now)) }
{
    let mut set = BTreeSet::new(alloc);
    for text in texts {
        match set.insert(*text) {
            Ok(_) => {}
            Err(_) => return Err(NoMemory),
        }
    }
    let list = copied(alloc, &set)?;
    Ok(list)
}

fn copied(alloc: Global, set: &BTreeSet<&[u8]>) -> Result<Vec<Units>, NoMemory>
    ensures same { IfOk result (λ list. list.items ≡ spelled set.now.keys) }
    ensures bytes { IfOk result (λ list. All AreBytes list.items) }
    ensures ascending { IfOk result (λ list. IsAscending list.items) }
{
    let mut list = Vec::new(alloc);
    for string in set.iter() {
        put(alloc, &mut list, string)?;
    }
    Ok(list)
}

fn put(alloc: Global, list: &mut Vec<Units>, string: &[u8]) -> Result<(), NoMemory>
    ensures more { OnOk result (list.new.items ≡ list.old.items ++ string.now ∷ []) }
    ensures bytes { AreBytes string.now }
{
    let string = text(alloc, string)?;
    match list.push(string) {
        Ok(()) => Ok(()),
        Err(_) => Err(NoMemory),
    }
}
