//! Calls of a store that change the elements of a node, as the actions that they are.

ghost use Rattle.std.specs.Prelude.{◌≡◌, ◌<◌, false, Some, Ok, length};
ghost use Rattle.snap_graph.specs.declared.kind.Kind.TheVariants.{Array};
ghost use Rattle.snap_graph.specs.Values.{IsValue};
ghost use Rattle.snap_action.specs.Gives.{Gives, as_held, as_is, as_some};
ghost use Rattle.snap_store.specs.Calls.{MayStandIn};
ghost use Rattle.spec_values.specs.Access.{is_array};
ghost use Rattle.spec_values.specs.Operations.{add_element, elements_of, is_frozen, kind_of, pop_element, push_element, set_element};

use crate::fault::Abrupt;
use snap_store::Store;

/// Writes an element of an array that is not frozen, a function or a scope.
pub fn write_element<S: Store>(store: &mut S, node: u32, i: u32, held: &S::Held)
    requires number { node < length (S.view store.old).nodes }
    requires place { i < length (elements_of (S.view store.old).nodes node) }
    requires owned { S.owns store.old held.now }
    requires value { MayStandIn (S.view store.old).nodes node (S.meaning store.old held.now) }
    ensures { Gives S.Store store.old store.new as_is (Ok (tt {0})) (set_element node i (S.meaning store.old held.now)) }
{
    store.set_element(node, i, held);
}

/// Puts an element behind those of an array that is not frozen.
pub fn push_element<S: Store>(
    store: &mut S,
    node: u32,
    held: &S::Held,
) -> Result<(), Abrupt<S::Held>>
    requires number { node < length (S.view store.old).nodes }
    requires kind { kind_of (S.view store.old).nodes node ≡ Some Array }
    requires frozen { is_frozen (S.view store.old).nodes node ≡ false }
    requires owned { S.owns store.old held.now }
    requires value { IsValue (length (S.view store.old).nodes) (S.meaning store.old held.now) }
    ensures { Gives S.Store store.old store.new as_is result (push_element node (S.meaning store.old held.now)) }
{
    store.push_element(node, held)?;
    Ok(())
}

/// Puts an element behind those of a function or a scope, whose number has no limit.
pub fn add_element<S: Store>(
    store: &mut S,
    node: u32,
    held: &S::Held,
) -> Result<(), Abrupt<S::Held>>
    requires number { node < length (S.view store.old).nodes }
    requires kind { is_array (kind_of (S.view store.old).nodes node) ≡ false }
    requires owned { S.owns store.old held.now }
    requires value { MayStandIn (S.view store.old).nodes node (S.meaning store.old held.now) }
    ensures { Gives S.Store store.old store.new as_is result (add_element node (S.meaning store.old held.now)) }
{
    store.push_element(node, held)?;
    Ok(())
}

/// Takes the last element of an array that is not frozen, if there is one.
pub fn pop_element<S: Store>(store: &mut S, node: u32) -> Option<S::Held>
    requires number { node < length (S.view store.old).nodes }
    requires kind { kind_of (S.view store.old).nodes node ≡ Some Array }
    requires frozen { is_frozen (S.view store.old).nodes node ≡ false }
    ensures { Gives S.Store store.old store.new (as_some (as_held S.Store store.new)) (Ok result) (pop_element node) }
{
    store.pop_element(node)
}
