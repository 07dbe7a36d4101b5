//! The properties of the global object, from the globals that a script left.

ghost use Rattle.std.specs.Prelude.{◌≡◌, ◌++◌, [], ◌∷◌, map, IfOk, OnOk};
ghost use Rattle.snap_commands.specs.Globals.{entries_of, own_of};
ghost use Rattle.snap_commands.specs.Properties.{own, own_properties, properties_of, property_of};
ghost use Rattle.snap_commands.specs.Thin.{value_of};

use crate::evaluate::Globals;
use crate::own::OWN;
use crate::statement::Literal;
use snap_base::NoMemory;
use snap_graph::{Property, Value};
use snap_text::{StrView, Units};
use std::alloc::Global;

/// The properties of a global object that holds these globals: its own ones come first.
pub(crate) fn properties(alloc: Global, globals: &Globals<'_>) -> Result<Vec<Property>, NoMemory>
    ensures { IfOk result (λ list. list.items ≡ properties_of (entries_of globals.now.entries)) }
{
    let mut list = Vec::new(alloc);
    put_own(alloc, &OWN, &mut list)?;
    put_globals(alloc, globals, &mut list)?;
    Ok(list)
}

fn put_own(alloc: Global, own: &[(&str, u32)], list: &mut Vec<Property>) -> Result<(), NoMemory>
    ensures { OnOk result (list.new.items ≡ list.old.items ++ map own_of own.now) }
{
    for (name, node) in own {
        let key = text(alloc, name.as_bytes())?;
        let value = Value::Node(*node);
        put(list, Property { key, value })?;
    }
    Ok(())
}

fn put_globals(
    alloc: Global,
    globals: &Globals<'_>,
    list: &mut Vec<Property>,
) -> Result<(), NoMemory>
    ensures { OnOk result (list.new.items ≡ list.old.items ++ map property_of (entries_of globals.now.entries)) }
{
    for index in 0..globals.len() {
        if let Some((name, value)) = globals.get_index(index) {
            let property = property(alloc, name, *value)?;
            put(list, property)?;
        }
    }
    Ok(())
}

fn put(list: &mut Vec<Property>, property: Property) -> Result<(), NoMemory>
    ensures { OnOk result (list.new.items ≡ list.old.items ++ property ∷ []) }
{
    match list.push(property) {
        Ok(()) => Ok(()),
        Err(_) => Err(NoMemory),
    }
}

fn property(alloc: Global, name: &[u8], value: Literal<'_>) -> Result<Property, NoMemory>
    ensures { IfOk result (λ p. p ≡ property_of (name.now, value_of value.entry)) }
{
    let key = text(alloc, name)?;
    let value = held(alloc, value)?;
    Ok(Property { key, value })
}

// The value of a literal.
fn held(alloc: Global, value: Literal<'_>) -> Result<Value, NoMemory>
    ensures { IfOk result (λ v. v ≡ value_of value.entry) }
{
    match value {
        Literal::Undefined => Ok(Value::Undefined),
        Literal::Null => Ok(Value::Null),
        Literal::Bool(truth) => Ok(Value::Bool(truth)),
        Literal::Int(number) => Ok(Value::Int(number)),
        Literal::Text(bytes) => {
            let text = text(alloc, bytes)?;
            Ok(Value::Text(text))
        }
    }
}

/// A text of these bytes, one a unit.
pub(crate) fn text(alloc: Global, bytes: &[u8]) -> Result<Units, NoMemory>
    ensures { IfOk result (λ text. text ≡ bytes.now) }
{
    match StrView::One(bytes).copy(alloc) {
        Ok(text) => Ok(text),
        Err(_) => Err(NoMemory),
    }
}
