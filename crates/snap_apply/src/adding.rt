//! `+`, where a text is given (ECMA-262, 13.15.3).

ghost use Rattle.std.specs.Prelude.{◌≡◌, ◌||◌, true, is_some, IfOk, IsSome};
ghost use Rattle.snap_action.specs.Gives.{Gives, as_held};
ghost use Rattle.snap_apply.specs.Judged.{spelled};
ghost use Rattle.snap_store.specs.Calls.{text_units};
ghost use Rattle.spec_values.specs.Access.{or_stop};
ghost use Rattle.spec_values.specs.Operators.{added};

use snap_action::{Abrupt, hold_again, hold_value, is_text, join_texts, read_value};
use snap_graph::Value;
use snap_oper::{OperFault, text_of};
use snap_store::Store;
use std::alloc::Global;

/// The texts of two values, of which one is a text at least, one behind the other. A text is not copied for it, but where the one
/// on the left is held apart.
pub(crate) fn add_texts<S: Store>(
    alloc: Global,
    store: &mut S,
    left: &S::Held,
    right: &S::Held,
) -> Result<S::Held, Abrupt<S::Held>>
    requires left { S.owns store.old left.now }
    requires right { S.owns store.old right.now }
    requires text { is_some (text_units (S.meaning store.old left.now)) || is_some (text_units (S.meaning store.old right.now)) ≡ true }
    ensures gives { Gives S.Store store.old store.new (as_held S.Store store.new) result (or_stop (added (S.meaning store.old left.now) (S.meaning store.old right.now))) }
    ensures view { S.view store.new ≡ S.view store.old }
{
    if is_text(store, left) && is_text(store, right) {
        return join_texts(store, left, right);
    }
    let left = spell_held(alloc, store, left)?;
    let right = spell_held(alloc, store, right)?;
    join_texts(store, &left, &right)
}

/// The text of a value that is held, held (7.1.17, ToString). A text is held again, without a copy. A node has none in this
/// profile: evaluation stops there.
pub fn spell_held<S: Store>(
    alloc: Global,
    store: &mut S,
    held: &S::Held,
) -> Result<S::Held, Abrupt<S::Held>>
    requires { S.owns store.old held.now }
    ensures gives { Gives S.Store store.old store.new (as_held S.Store store.new) result (or_stop (spelled (S.meaning store.old held.now))) }
    ensures text { IfOk result (λ text. IsSome (text_units (S.meaning store.new text))) }
    ensures view { S.view store.new ≡ S.view store.old }
{
    if is_text(store, held) {
        return hold_again(store, held);
    }
    let value = read_value(store, held)?;
    match text_of(alloc, &value) {
        Ok(text) => hold_value(store, &Value::Text(text)),
        Err(OperFault::Stopped(stop)) => Err(Abrupt::Stopped(stop)),
        Err(OperFault::NoMemory) => Err(Abrupt::NoMemory),
    }
}
