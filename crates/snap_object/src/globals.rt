//! Names that no scope holds: properties of the global object (ECMA-262, 9.1.1.2).

ghost use Rattle.std.specs.Prelude.{◌≡◌, ◌<◌, false, Some, OnOk, length};
ghost use Rattle.snap_action.specs.Gives.{Gives, as_is};
ghost use Rattle.snap_action.specs.Names.{IsKnown};
ghost use Rattle.snap_graph.specs.declared.value.Value.TheVariants.{Node as At};
ghost use Rattle.snap_graph.specs.Values.{IsValue};
ghost use Rattle.snap_object.specs.Globals.{as_global};
ghost use Rattle.snap_object.specs.Names.{StaysKnown};
ghost use Rattle.snap_object.specs.Parts.{defined_from, found_from};
ghost use Rattle.spec_values.specs.Access.{is_array};
ghost use Rattle.spec_values.specs.Asking.{find_global, set_global};
ghost use Rattle.spec_values.specs.Operations.{kind_of};

use crate::names::named_key;
use crate::reading::find_value;
use crate::writing::set_named;
use snap_action::{Abrupt, ErrorKind, Name, throw_error};
use snap_graph::Value;
use snap_store::Store;
use snap_text::{Key, Units};
use std::alloc::Global;

/// What a name stands for in the global object.
#[derive(Drop)]
pub struct FoundGlobal<H> {
    /// The key of the name, by which it may be written later without another use.
    pub key: Key,
    /// What the global object or one of its prototypes has under the name; nothing where it is absent.
    pub held: Option<H>,
}

/// Looks for a name in the global object and along its prototypes, which is the one use of its key: what it stands for, or
/// nothing where it is absent (9.1.1.2.1, HasBinding, and 9.1.1.2.6, GetBindingValue). What is absent is not undefined: reading
/// it throws, and `typeof` does not.
pub fn find_global<S: Store>(
    alloc: Global,
    store: &mut S,
    global: u32,
    name: &mut Name,
) -> Result<FoundGlobal<S::Held>, Abrupt<S::Held>>
    requires number { global < length (S.view store.old).nodes }
    requires known { IsKnown (S.key_of store.old) name.old }
    ensures gives { Gives S.Store store.old store.new (as_global S.Store store.new name.old.text) result (find_global global name.old.text) }
    ensures kept { StaysKnown (S.key_of store.new) name.old name.new }
    ensures nodes { OnOk result ((S.view store.new).nodes ≡ (S.view store.old).nodes) }
{
    let key = named_key(store, name)?;
    found_global(alloc, store, global, name.text(), key)
}

// Looks for a name that was used.
fn found_global<S: Store>(
    alloc: Global,
    store: &mut S,
    global: u32,
    name: &Units,
    key: Key,
) -> Result<FoundGlobal<S::Held>, Abrupt<S::Held>>
    requires number { global < length (S.view store.old).nodes }
    requires key { S.key_of store.old name.now ≡ Some key }
    ensures gives { Gives S.Store store.old store.new (as_global S.Store store.new name.now) result (found_from (At global) name.now global) }
    ensures nodes { OnOk result ((S.view store.new).nodes ≡ (S.view store.old).nodes) }
{
    match find_value(alloc, store, &Value::Node(global), name, key, global) {
        Ok(held) => Ok(FoundGlobal { key, held }),
        Err(fault) => Err(fault),
    }
}

/// Writes a name whose key was used when it was looked for: that use is the only one. Where the name is absent by now, a
/// ReferenceError is thrown (9.1.1.2.5, SetMutableBinding).
pub fn set_global<S: Store>(
    alloc: Global,
    store: &mut S,
    global: u32,
    name: &Units,
    key: Key,
    held: &S::Held,
) -> Result<(), Abrupt<S::Held>>
    requires number { global < length (S.view store.old).nodes }
    requires kind { is_array (kind_of (S.view store.old).nodes global) ≡ false }
    requires key { S.key_of store.old name.now ≡ Some key }
    requires owned { S.owns store.old held.now }
    requires value { IsValue (length (S.view store.old).nodes) (S.meaning store.old held.now) }
    ensures { Gives S.Store store.old store.new as_is result (set_global global name.now (S.meaning store.old held.now)) }
{
    if is_defined(alloc, store, global, name, key)? {
        return set_named(alloc, store, global, name, key, held);
    }
    Err(throw_error(alloc, store, ErrorKind::ReferenceError, b"not defined"))
}

// Whether a name stands for anything.
fn is_defined<S: Store>(
    alloc: Global,
    store: &mut S,
    global: u32,
    name: &Units,
    key: Key,
) -> Result<bool, Abrupt<S::Held>>
    requires number { global < length (S.view store.old).nodes }
    requires key { S.key_of store.old name.now ≡ Some key }
    ensures gives { Gives S.Store store.old store.new as_is result (defined_from (At global) name.now global) }
    ensures nodes { OnOk result ((S.view store.new).nodes ≡ (S.view store.old).nodes) }
{
    Ok(find_value(alloc, store, &Value::Node(global), name, key, global)?.is_some())
}
