//! The texts that stand in a blob: keys of properties, and texts that properties hold.

ghost use Rattle.std.specs.Prelude.{◌≡◌, ◌++◌, ◌∷◌, [], map, IfOk, OnOk};
ghost use Rattle.snap_commands.specs.Globals.{entries_of, names_of, spelled};
ghost use Rattle.snap_commands.specs.Properties.{properties_of, property_of, texts_of};
ghost use Rattle.snap_commands.specs.Thin.{value_of};

use crate::evaluate::Globals;
use crate::own::OWN;
use crate::statement::Literal;
use snap_base::NoMemory;
use std::alloc::Global;

/// The keys and the texts of a global object that holds these globals, in order of the properties.
pub(crate) fn texts<'a>(alloc: Global, globals: &Globals<'a>) -> Result<Vec<&'a [u8]>, NoMemory>
    ensures { IfOk result (λ list. spelled list.items ≡ texts_of (properties_of (entries_of globals.now.entries))) }
{
    let mut list = Vec::new(alloc);
    put_own(&OWN, &mut list)?;
    put_globals(globals, &mut list)?;
    Ok(list)
}

fn put_own<'a>(own: &[(&'a str, u32)], list: &mut Vec<&'a [u8]>) -> Result<(), NoMemory>
    ensures { OnOk result (spelled list.new.items ≡ spelled list.old.items ++ names_of own.now) }
{
    for (name, _node) in own {
        put(list, name.as_bytes())?;
    }
    Ok(())
}

fn put_globals<'a>(globals: &Globals<'a>, list: &mut Vec<&'a [u8]>) -> Result<(), NoMemory>
    ensures { OnOk result (spelled list.new.items
        ≡ spelled list.old.items ++ texts_of (map property_of (entries_of globals.now.entries))) }
{
    for index in 0..globals.len() {
        if let Some((name, value)) = globals.get_index(index) {
            put_global(list, name, *value)?;
        }
    }
    Ok(())
}

fn put_global<'a>(
    list: &mut Vec<&'a [u8]>,
    name: &'a [u8],
    value: Literal<'a>,
) -> Result<(), NoMemory>
    ensures { OnOk result (spelled list.new.items
        ≡ spelled list.old.items ++ texts_of (property_of (name.now, value_of value.entry) ∷ [])) }
{
    put(list, name)?;
    if let Literal::Text(text) = value {
        put(list, text)?;
    }
    Ok(())
}

fn put<'a>(list: &mut Vec<&'a [u8]>, text: &'a [u8]) -> Result<(), NoMemory>
    ensures { OnOk result (spelled list.new.items ≡ spelled list.old.items ++ text.now ∷ []) }
{
    match list.push(text) {
        Ok(()) => Ok(()),
        Err(_) => Err(NoMemory),
    }
}
