//! Array indices (ECMA-262, 6.1.7).

ghost use Rattle.std.specs.Prelude.{◌≡◌, ◌<◌, Some, IfSome, length};
ghost use Rattle.snap_graph.specs.declared.value.Value.TheVariants.{Text};
ghost use Rattle.spec_values.specs.Access.{element_of, index_of, number_index};

use crate::words::is_array;
use snap_action::Name;
use snap_graph::Value;
use snap_store::{INDEX_END, Store};

/// The array index that an integer is as a key. No other key is looked at.
pub(crate) fn integer_index(key: &Value) -> Option<u32>
    ensures { IfSome result (λ place. index_of key.now ≡ Some place) }
{
    match key {
        Value::Int(number) => number_index(*number),
        _ => None,
    }
}

// The array index that an integer is.
fn number_index(number: i64) -> Option<u32>
    ensures { result ≡ number_index number }
{
    if number >= 0 && number.unsigned_abs() < u64::from(INDEX_END) {
        Some(number as u32)
    } else {
        None
    }
}

/// The element that a name names, which is an array's alone.
pub(crate) fn element_of<S: Store>(store: &S, node: u32, name: &Name) -> Option<u32>
    requires { node < length (S.view store.now).nodes }
    ensures { result ≡ element_of (S.view store.now).nodes node (Text name.now.text) }
{
    if is_array(store.kind(node)) {
        name.index()
    } else {
        None
    }
}
