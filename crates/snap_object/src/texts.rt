//! Bases and keys that are texts, which are read where they stand.

ghost use Rattle.std.specs.Prelude.{◌≡◌, IfOk, length};
ghost use Rattle.snap_graph.specs.Values.{IsPlace};
ghost use Rattle.snap_object.specs.Texts.{IsNamedBy, without_units};

use snap_action::{Name, is_text};
use snap_base::NoMemory;
use snap_graph::Value;
use snap_store::Store;
use snap_text::Units;
use std::alloc::Global;

/// What a base is, but for the units of a text. What a write or a removal comes to hangs on none of them.
pub(crate) fn base_of<S: Store>(alloc: Global, store: &S, held: &S::Held) -> Result<Value, NoMemory>
    requires { S.owns store.now held.now }
    ensures value { IfOk result (λ value. value ≡ without_units (S.meaning store.now held.now)) }
    ensures place { IfOk result (λ value. IsPlace (length (S.view store.now).nodes) value) }
{
    if is_text(store, held) {
        return Ok(Value::Text(Units::from_vec(Vec::new(alloc))));
    }
    store.value(held)
}

/// Makes a name that of a key that is held, where this is a text, and says whether it is one.
pub(crate) fn named_by<S: Store>(
    alloc: Global,
    store: &S,
    key: &S::Held,
    name: &mut Name,
) -> Result<bool, NoMemory>
    requires { S.owns store.now key.now }
    ensures { IfOk result (IsNamedBy (S.meaning store.now key.now) name.new) }
{
    match store.text(key) {
        Some(text) => match name.rename(alloc, &text) {
            Ok(()) => Ok(true),
            Err(_) => Err(NoMemory),
        },
        None => Ok(false),
    }
}
