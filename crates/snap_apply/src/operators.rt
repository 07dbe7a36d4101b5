//! Each operator.

ghost use Rattle.std.specs.Prelude.{◌≡◌, ◌≢◌, ◌||◌, true, is_some, length};
ghost use Rattle.snap_action.specs.Gives.{Gives, as_held, as_is};
ghost use Rattle.snap_graph.specs.Values.{IsValue};
ghost use Rattle.snap_store.specs.Calls.{text_units};
ghost use Rattle.spec_values.specs.Access.{or_stop};
ghost use Rattle.spec_values.specs.Answer.{give};
ghost use Rattle.spec_values.specs.Conversions.{truth_of};
ghost use Rattle.spec_values.specs.declared.operator.BinaryOp.TheVariants.{Add};
ghost use Rattle.spec_values.specs.declared.operator.UnaryOp.TheVariants.{Not};
ghost use Rattle.spec_values.specs.Operators.{binary_value, unary_value};

use crate::adding::add_texts;
use crate::judging::judge;
use snap_action::{Abrupt, hold_value, is_text, read_value};
use snap_base::Stop;
use snap_graph::Value;
use snap_oper::{OperFault, binary, truth_of, unary, values_are_operands};
use snap_store::Store;
use spec_values::{BinaryOp, UnaryOp, operators_give_values};
use std::alloc::Global;

/// What the operator gives of two values that are held, or why it gives none: exactly what `binary` of `snap_oper` answers on the
/// values, held. Texts are read where they stand.
pub fn apply_binary<S: Store>(
    alloc: Global,
    store: &mut S,
    op: BinaryOp,
    left: &S::Held,
    right: &S::Held,
) -> Result<S::Held, Abrupt<S::Held>>
    requires left { S.owns store.old left.now }
    requires left_value { IsValue (length (S.view store.old).nodes) (S.meaning store.old left.now) }
    requires right { S.owns store.old right.now }
    requires right_value { IsValue (length (S.view store.old).nodes) (S.meaning store.old right.now) }
    ensures gives { Gives S.Store store.old store.new (as_held S.Store store.new) result
        (or_stop (binary_value op (S.meaning store.old left.now) (S.meaning store.old right.now))) }
    ensures view { S.view store.new ≡ S.view store.old }
{
    if !(is_text(store, left) || is_text(store, right)) {
        return apply_plain(alloc, store, op, left, right);
    }
    match op {
        BinaryOp::Add => add_texts(alloc, store, left, right),
        _ => hold_judgement(store, op, left, right),
    }
}

// What an operator gives of two values; texts would be copied.
fn apply_plain<S: Store>(
    alloc: Global,
    store: &mut S,
    op: BinaryOp,
    left: &S::Held,
    right: &S::Held,
) -> Result<S::Held, Abrupt<S::Held>>
    requires left { S.owns store.old left.now }
    requires left_value { IsValue (length (S.view store.old).nodes) (S.meaning store.old left.now) }
    requires right { S.owns store.old right.now }
    requires right_value { IsValue (length (S.view store.old).nodes) (S.meaning store.old right.now) }
    ensures gives { Gives S.Store store.old store.new (as_held S.Store store.new) result
        (or_stop (binary_value op (S.meaning store.old left.now) (S.meaning store.old right.now))) }
    ensures view { S.view store.new ≡ S.view store.old }
{
    values_are_operands();
    operators_give_values();
    let left = read_value(store, left)?;
    let right = read_value(store, right)?;
    match binary(alloc, op, &left, &right) {
        Ok(value) => hold_value(store, &value),
        Err(OperFault::Stopped(stop)) => Err(Abrupt::Stopped(stop)),
        Err(OperFault::NoMemory) => Err(Abrupt::NoMemory),
    }
}

// What an operator other than `+` gives of two values of which one is a text at least.
fn hold_judgement<S: Store>(
    store: &mut S,
    op: BinaryOp,
    left: &S::Held,
    right: &S::Held,
) -> Result<S::Held, Abrupt<S::Held>>
    requires op { op ≢ Add }
    requires left { S.owns store.old left.now }
    requires right { S.owns store.old right.now }
    requires text { is_some (text_units (S.meaning store.old left.now)) || is_some (text_units (S.meaning store.old right.now)) ≡ true }
    ensures gives { Gives S.Store store.old store.new (as_held S.Store store.new) result
        (or_stop (binary_value op (S.meaning store.old left.now) (S.meaning store.old right.now))) }
    ensures view { S.view store.new ≡ S.view store.old }
{
    match judge(store, op, left, right) {
        Some(truth) => hold_value(store, &Value::Bool(truth)),
        None => Err(Abrupt::Stopped(Stop::NotInProfile)),
    }
}

/// What the operator gives of one value that is held, or why it gives none: exactly what `unary` of `snap_oper` answers on the
/// value, held.
pub fn apply_unary<S: Store>(
    store: &mut S,
    op: UnaryOp,
    held: &S::Held,
) -> Result<S::Held, Abrupt<S::Held>>
    requires owned { S.owns store.old held.now }
    requires value { IsValue (length (S.view store.old).nodes) (S.meaning store.old held.now) }
    ensures gives { Gives S.Store store.old store.new (as_held S.Store store.new) result (or_stop (unary_value op (S.meaning store.old held.now))) }
    ensures view { S.view store.new ≡ S.view store.old }
{
    match op {
        UnaryOp::Not => hold_untruth(store, held),
        _ => apply_number(store, op, held),
    }
}

// `!` of a value (13.5.7).
fn hold_untruth<S: Store>(store: &mut S, held: &S::Held) -> Result<S::Held, Abrupt<S::Held>>
    requires { S.owns store.old held.now }
    ensures gives { Gives S.Store store.old store.new (as_held S.Store store.new) result (or_stop (unary_value Not (S.meaning store.old held.now))) }
    ensures view { S.view store.new ≡ S.view store.old }
{
    let truth = is_true(store, held)?;
    hold_value(store, &Value::Bool(!truth))
}

// What an operator gives of the number of a value, which no text has in this profile.
fn apply_number<S: Store>(
    store: &mut S,
    op: UnaryOp,
    held: &S::Held,
) -> Result<S::Held, Abrupt<S::Held>>
    requires op { op ≢ Not }
    requires owned { S.owns store.old held.now }
    requires value { IsValue (length (S.view store.old).nodes) (S.meaning store.old held.now) }
    ensures gives { Gives S.Store store.old store.new (as_held S.Store store.new) result (or_stop (unary_value op (S.meaning store.old held.now))) }
    ensures view { S.view store.new ≡ S.view store.old }
{
    if is_text(store, held) {
        return Err(Abrupt::Stopped(Stop::NotInProfile));
    }
    values_are_operands();
    operators_give_values();
    let value = read_value(store, held)?;
    match unary(op, &value) {
        Ok(value) => hold_value(store, &value),
        Err(OperFault::Stopped(stop)) => Err(Abrupt::Stopped(stop)),
        Err(OperFault::NoMemory) => Err(Abrupt::NoMemory),
    }
}

/// The truth value of a value that is held (7.1.2, ToBoolean).
pub fn is_true<S: Store>(store: &S, held: &S::Held) -> Result<bool, Abrupt<S::Held>>
    requires { S.owns store.now held.now }
    ensures { Gives S.Store store.now store.now as_is result (give (truth_of (S.meaning store.now held.now))) }
{
    match store.text(held) {
        Some(text) => Ok(!text.is_empty()),
        None => Ok(truth_of(&store.value(held)?)),
    }
}
