//! Calls of a store that change what it stands for, as the actions that they are.

ghost use Rattle.std.specs.Prelude.{◌≡◌, ◌<◌, ℕ, Bool, false, Some, IfOk, IfSome, Ok, OnOk, length};
ghost use Rattle.snap_graph.specs.declared.kind.Kind.TheVariants.{Array, Native};
ghost use Rattle.snap_graph.specs.Intrinsics.{IsNative};
ghost use Rattle.snap_graph.specs.Lawful.{IsElementKey, IsPrototype};
ghost use Rattle.snap_graph.specs.Values.{IsPlace, IsValue};
ghost use Rattle.snap_action.specs.Gives.{Gives, as_held, as_is, as_key, as_node};
ghost use Rattle.snap_store.specs.Calls.{IsResource};
ghost use Rattle.snap_store.specs.View.{with_made};
ghost use Rattle.spec_values.specs.Answer.{give, use_key};
ghost use Rattle.spec_values.specs.Operations.{close, freeze, is_frozen, kind_of, make, put_own, remove_own, write_own};

use crate::fault::Abrupt;
use snap_graph::{Kind, Value};
use snap_store::Store;
use snap_text::{Key, Units};

/// A value, held.
pub fn hold_value<S: Store>(store: &mut S, value: &Value) -> Result<S::Held, Abrupt<S::Held>>
    requires { IsPlace (length (S.view store.old).nodes) value.now }
    ensures gives { Gives S.Store store.old store.new (as_held S.Store store.new) result (give value.now) }
    ensures meaning { IfOk result (λ held. S.meaning store.new held ≡ value.now) }
    ensures view { S.view store.new ≡ S.view store.old }
{
    Ok(store.hold(value)?)
}

/// The value that a held value stands for.
pub fn read_value<S: Store>(store: &S, held: &S::Held) -> Result<Value, Abrupt<S::Held>>
    requires { S.owns store.now held.now }
    ensures gives { Gives S.Store store.now store.now as_is result (give (S.meaning store.now held.now)) }
    ensures value { IfOk result (λ value. value ≡ S.meaning store.now held.now) }
{
    Ok(store.value(held)?)
}

/// The key of a text, which is used.
pub fn use_text<S: Store>(store: &mut S, text: &Units) -> Result<Key, Abrupt<S::Held>>
    ensures gives { Gives S.Store store.old store.new (as_key S.Store store.new text.now) result (use_key text.now) }
    ensures nodes { (S.view store.new).nodes ≡ (S.view store.old).nodes }
{
    Ok(store.key(text)?)
}

/// Makes a node with nothing in it, which is private, and answers its number.
pub fn make_node<S: Store>(
    store: &mut S,
    kind: Kind,
    prototype: &S::Held,
) -> Result<u32, Abrupt<S::Held>>
    requires owned { S.owns store.old prototype.now }
    requires prototype { IsPrototype (S.view store.old).nodes kind (S.meaning store.old prototype.now) }
    requires native { (number : ℕ) → kind ≡ Native number → IsNative number }
    ensures gives { Gives S.Store store.old store.new (as_node S.Store store.new) result (make kind (S.meaning store.old prototype.now)) }
    ensures number { IfOk result (λ number. number ≡ length (S.view store.old).nodes) }
    ensures view { OnOk result (S.view store.new ≡ with_made (S.view store.old) kind (S.meaning store.old prototype.now)) }
{
    Ok(store.make(kind, prototype)?)
}

/// Writes a property of a node that is not frozen, or creates it behind all others. The key is that of the text.
pub fn put_property<S: Store>(
    store: &mut S,
    node: u32,
    text: &Units,
    key: Key,
    held: &S::Held,
) -> Result<(), Abrupt<S::Held>>
    requires number { node < length (S.view store.old).nodes }
    requires frozen { is_frozen (S.view store.old).nodes node ≡ false }
    requires key { S.key_of store.old text.now ≡ Some key }
    requires element { kind_of (S.view store.old).nodes node ≡ Some Array → IsElementKey text.now → ⊥ }
    requires owned { S.owns store.old held.now }
    requires value { IsValue (length (S.view store.old).nodes) (S.meaning store.old held.now) }
    ensures { Gives S.Store store.old store.new as_is result (put_own node text.now (S.meaning store.old held.now)) }
{
    store.put_own(node, key, held)?;
    Ok(())
}

/// Writes a property that a node that is not frozen has, in its place, and says whether it has it. It takes no memory.
pub fn write_property<S: Store>(
    store: &mut S,
    node: u32,
    text: &Units,
    key: Key,
    held: &S::Held,
) -> bool
    requires number { node < length (S.view store.old).nodes }
    requires frozen { is_frozen (S.view store.old).nodes node ≡ false }
    requires key { S.key_of store.old text.now ≡ Some key }
    requires element { kind_of (S.view store.old).nodes node ≡ Some Array → IsElementKey text.now → ⊥ }
    requires owned { S.owns store.old held.now }
    requires value { IsValue (length (S.view store.old).nodes) (S.meaning store.old held.now) }
    ensures { Gives S.Store store.old store.new as_is (Ok result) (write_own node text.now (S.meaning store.old held.now)) }
{
    store.write_own(node, key, held)
}

/// Removes a property of a node that is not frozen, and says whether there was one. The key is that of the text.
pub fn remove_property<S: Store>(
    store: &mut S,
    node: u32,
    text: &Units,
    key: Key,
) -> Result<bool, Abrupt<S::Held>>
    requires number { node < length (S.view store.old).nodes }
    requires frozen { is_frozen (S.view store.old).nodes node ≡ false }
    requires key { S.key_of store.old text.now ≡ Some key }
    ensures { Gives S.Store store.old store.new as_is result (remove_own node text.now) }
{
    Ok(store.remove_own(node, key)?)
}

/// Freezes a node.
pub fn freeze_node<S: Store>(store: &mut S, node: u32)
    requires { node < length (S.view store.old).nodes }
    ensures { Gives S.Store store.old store.new as_is (Ok (tt {0})) (freeze node) }
{
    store.freeze(node);
}

/// Closes a resource.
pub fn close_resource<S: Store>(store: &mut S, node: u32)
    requires number { node < length (S.view store.old).nodes }
    requires kind { IfSome (kind_of (S.view store.old).nodes node) IsResource }
    ensures { Gives S.Store store.old store.new as_is (Ok (tt {0})) (close node) }
{
    store.close(node);
}
