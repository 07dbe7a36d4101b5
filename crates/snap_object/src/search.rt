//! Searching a property along prototypes.

ghost use Rattle.std.specs.Prelude.{◌≡◌, ◌<◌, Some, IfOk, IfSome, length};
ghost use Rattle.snap_graph.specs.declared.value.Value.{Value};
ghost use Rattle.snap_object.specs.declared.search.Found.{Found};
ghost use Rattle.snap_object.specs.Search.{Follows, IsOwn, found_along, found_at, shown, shown_or};
ghost use Rattle.spec_values.specs.Access.{reached_from};

use crate::words::{is_size, is_special};
use snap_base::NoMemory;
use snap_graph::Value;
use snap_store::Store;
use snap_text::{Key, Units};

/// What a search comes to first.
#[derive(Drop)]
pub(crate) enum Found<H> {
    /// A key that is not in this profile.
    Special,
    /// `size` of this prototype.
    Size(u32),
    /// A property.
    Own(u32, H),
    /// Nothing.
    Absent,
}

/// What is found first at a node and along its prototypes.
pub(crate) fn find<S: Store>(
    store: &S,
    from: u32,
    text: &Units,
    key: Key,
) -> Result<Found<S::Held>, NoMemory>
    requires number { from < length (S.view store.now).nodes }
    requires key { S.key_of store.now text.now ≡ Some key }
    ensures found { IfOk result (λ found. shown (S.meaning store.now) found ≡ found_along (S.view store.now).nodes text.now (reached_from (S.view store.now).nodes from)) }
    ensures owned { IfOk result (λ found. IsOwn (S.owns store.now) (length (S.view store.now).nodes) found) }
{
    let mut node = from;
    'along: loop {
        if let Some(found) = found_at(store, node, text, key) {
            return Ok(found);
        }
        match next_along(store, node)? {
            Some(next) => node = next,
            None => return Ok(Found::Absent),
        }
    }
}

// What is found at a node itself.
fn found_at<S: Store>(store: &S, node: u32, text: &Units, key: Key) -> Option<Found<S::Held>>
    requires number { node < length (S.view store.now).nodes }
    requires key { S.key_of store.now text.now ≡ Some key }
    ensures found { (further : Found Value) → shown_or (S.meaning store.now) result further ≡ found_at (S.view store.now).nodes text.now node further }
    ensures owned { IfSome result (λ found. IsOwn (S.owns store.now) (length (S.view store.now).nodes) found) }
{
    if is_special(store.kind(node), text) {
        return Some(Found::Special);
    }
    if is_size(node, text) {
        return Some(Found::Size(node));
    }
    match store.own(node, key) {
        Some(held) => Some(Found::Own(node, held)),
        None => None,
    }
}

// The prototype of a node, where it is a node.
fn next_along<S: Store>(store: &S, node: u32) -> Result<Option<u32>, NoMemory>
    requires { node < length (S.view store.now).nodes }
    ensures { IfOk result (λ next. Follows (S.view store.now).nodes node next) }
{
    let prototype = store.prototype(node);
    match store.value(&prototype)? {
        Value::Node(next) => Ok(Some(next)),
        _ => Ok(None),
    }
}
