//! Nodes of a store: how they are made, and whether any property may be put on them.

ghost use Rattle.std.specs.Prelude.{◌≡◌, ◌≤◌, ◌<◌, ℕ, IfOk, Some, false, length, true};
ghost use Rattle.snap_graph.specs.declared.kind.Kind.TheVariants.{Array, Native};
ghost use Rattle.snap_graph.specs.Intrinsics.{IsNative};
ghost use Rattle.snap_graph.specs.Lawful.{IsPrototype};
ghost use Rattle.snap_graph.specs.Values.{IsValue};
ghost use Rattle.spec_values.specs.Operations.{is_frozen, kind_of};

use crate::refused::Refused;
use snap_graph::{Kind, Value};
use snap_store::Store;

/// Makes a node.
pub fn new_node<S: Store>(store: &mut S, kind: Kind, prototype: &Value) -> Result<u32, Refused>
    requires value { IsValue (length (S.view store.old).nodes) prototype.now }
    requires prototype { IsPrototype (S.view store.old).nodes kind prototype.now }
    requires native { (number : ℕ) → kind ≡ Native number → IsNative number }
    ensures number { IfOk result (λ number. number < length (S.view store.new).nodes) }
    ensures grows { length (S.view store.old).nodes ≤ length (S.view store.new).nodes }
    ensures later { S.later store.old store.new }
{
    let held = store.hold(prototype)?;
    Ok(store.make(kind, &held)?)
}

/// A node that is there, which is made for it: no node has a greater number.
pub fn last_node<S: Store>(store: &mut S) -> Result<u32, Refused>
    ensures number { IfOk result (λ last. last < length (S.view store.new).nodes) }
    ensures later { S.later store.old store.new }
{
    new_node(store, Kind::Plain, &Value::Null)
}

/// Whether a node is neither frozen nor an array.
pub fn takes_properties<S: Store>(store: &S, node: u32) -> bool
    requires { node < length (S.view store.now).nodes }
    ensures frozen { result ≡ true → is_frozen (S.view store.now).nodes node ≡ false }
    ensures kind { result ≡ true → kind_of (S.view store.now).nodes node ≡ Some Array → ⊥ }
{
    !store.is_frozen(node) && store.kind(node) != Kind::Array
}
