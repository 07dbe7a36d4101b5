//! The names that keys are, and their use.

ghost use Rattle.std.specs.Prelude.{◌≡◌, Some, IfOk};
ghost use Rattle.snap_action.specs.Gives.{Gives};
ghost use Rattle.snap_action.specs.Names.{IsKnown};
ghost use Rattle.snap_graph.specs.declared.value.Value.TheVariants.{Bool as Truth, Int, Text};
ghost use Rattle.snap_object.specs.Names.{IsNameOf, IsTextOf, StaysKnown, as_named};
ghost use Rattle.spec_values.specs.Access.{named_key};

use snap_action::{Abrupt, Name, use_name};
use snap_base::Stop;
use snap_graph::Value;
use snap_store::Store;
use snap_text::{Key, NoMemory, StrView, Units, decimal};
use std::alloc::Global;

/// The name that a value is as a key. A node has none in this profile.
pub(crate) fn name_of(alloc: Global, key: &Value) -> Result<Option<Name>, NoMemory>
    ensures { IfOk result (IsNameOf key.now) }
{
    match spelled(alloc, key)? {
        Some(text) => Ok(Some(Name::new(text))),
        None => Ok(None),
    }
}

// The text of a key (ECMA-262, 7.1.17, ToString).
fn spelled(alloc: Global, key: &Value) -> Result<Option<Units>, NoMemory>
    ensures { IfOk result (IsTextOf key.now) }
{
    match key {
        Value::Text(text) => Ok(Some(Units::of(alloc, text.units())?)),
        Value::Undefined => Ok(Some(StrView::One(b"undefined").copy(alloc)?)),
        Value::Null => Ok(Some(StrView::One(b"null").copy(alloc)?)),
        Value::Bool(truth) => Ok(Some(truth_text(alloc, *truth)?)),
        Value::Int(number) => Ok(Some(number_text(alloc, *number)?)),
        Value::Node(_) | Value::Empty => Ok(None),
    }
}

// The text of a truth value.
fn truth_text(alloc: Global, truth: bool) -> Result<Units, NoMemory>
    ensures { IfOk result (λ text. IsTextOf (Truth truth) (Some text)) }
{
    if truth {
        Ok(StrView::One(b"true").copy(alloc)?)
    } else {
        Ok(StrView::One(b"false").copy(alloc)?)
    }
}

// The text of a number.
fn number_text(alloc: Global, number: i64) -> Result<Units, NoMemory>
    ensures { IfOk result (λ text. IsTextOf (Int number) (Some text)) }
{
    Ok(decimal(alloc, number)?)
}

/// The key of a name, which is used. `__proto__` is not in this profile.
pub(crate) fn named_key<S: Store>(store: &mut S, name: &mut Name) -> Result<Key, Abrupt<S::Held>>
    requires { IsKnown (S.key_of store.old) name.old }
    ensures gives { Gives S.Store store.old store.new (as_named S.Store store.new name.old.text) result (named_key (Text name.old.text)) }
    ensures nodes { (S.view store.new).nodes ≡ (S.view store.old).nodes }
    ensures kept { StaysKnown (S.key_of store.new) name.old name.new }
{
    let key = use_name(store, name)?;
    if name.is_proto() {
        return Err(Abrupt::Stopped(Stop::NotInProfile));
    }
    Ok(key)
}
