//! Calls of a store that look at what it stands for, as the actions that they are.

ghost use Rattle.std.specs.Prelude.{◌≡◌, ◌<◌, Some, Ok, length};
ghost use Rattle.snap_action.specs.Gives.{Gives, as_held, as_is, as_some};
ghost use Rattle.spec_values.specs.Operations.{count_at, element_at, elements_of, frozen_at, kind_at, own_at, own_keys_at, prototype_at};

use crate::fault::Abrupt;
use snap_base::Items;
use snap_graph::Kind;
use snap_store::Store;
use snap_text::{Key, Units};

/// What a node is.
pub fn kind_of_node<S: Store>(store: &S, node: u32) -> Kind
    requires { node < length (S.view store.now).nodes }
    ensures { Gives S.Store store.now store.now (as_some as_is) (Ok (Some result)) (kind_at node) }
{
    store.kind(node)
}

/// The prototype of a node.
pub fn prototype_of<S: Store>(store: &S, node: u32) -> S::Held
    requires { node < length (S.view store.now).nodes }
    ensures { Gives S.Store store.now store.now (as_some (as_held S.Store store.now)) (Ok (Some result)) (prototype_at node) }
{
    store.prototype(node)
}

/// Whether a node is frozen.
pub fn is_frozen<S: Store>(store: &S, node: u32) -> bool
    requires { node < length (S.view store.now).nodes }
    ensures { Gives S.Store store.now store.now as_is (Ok result) (frozen_at node) }
{
    store.is_frozen(node)
}

/// What a node holds under a key of its own. The key is that of the text.
pub fn own_property<S: Store>(store: &S, node: u32, text: &Units, key: Key) -> Option<S::Held>
    requires number { node < length (S.view store.now).nodes }
    requires key { S.key_of store.now text.now ≡ Some key }
    ensures { Gives S.Store store.now store.now (as_some (as_held S.Store store.now)) (Ok result) (own_at node text.now) }
{
    store.own(node, key)
}

/// The texts of a node's own keys, in the order of own keys (ECMA-262, 10.1.11).
pub fn list_own_keys<S: Store>(store: &S, node: u32) -> Result<Items<Units>, Abrupt<S::Held>>
    requires { node < length (S.view store.now).nodes }
    ensures { Gives S.Store store.now store.now as_is result (own_keys_at node) }
{
    Ok(Items::from_vec(store.own_keys(node)?))
}

/// How many elements a node has.
pub fn count_elements<S: Store>(store: &S, node: u32) -> u32
    requires { node < length (S.view store.now).nodes }
    ensures { Gives S.Store store.now store.now as_is (Ok result) (count_at node) }
{
    store.count(node)
}

/// An element of a node.
pub fn read_element<S: Store>(store: &S, node: u32, i: u32) -> S::Held
    requires number { node < length (S.view store.now).nodes }
    requires place { i < length (elements_of (S.view store.now).nodes node) }
    ensures { Gives S.Store store.now store.now (as_some (as_held S.Store store.now)) (Ok (Some result)) (element_at node i) }
{
    store.element(node, i)
}
