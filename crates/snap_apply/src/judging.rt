//! Operators other than `+`, where a text is given.

ghost use Rattle.std.specs.Prelude.{◌≡◌, ◌≢◌, ◌||◌, ℕ, List, None, true, is_some};
ghost use Rattle.snap_apply.specs.Judged.{judged};
ghost use Rattle.snap_arena.specs.Views.{units};
ghost use Rattle.snap_graph.specs.declared.value.Value.{Value};
ghost use Rattle.snap_graph.specs.declared.value.Value.TheVariants.{Text};
ghost use Rattle.snap_store.specs.Calls.{text_units};
ghost use Rattle.spec_values.specs.declared.operator.BinaryOp.TheVariants.{Add};
ghost use Rattle.spec_values.specs.Operators.{binary_value};

use snap_arena::TextView;
use snap_store::Store;
use spec_values::BinaryOp;

/// What an operator other than `+` finds of two values of which one is a text at least; nothing where it wants numbers.
pub(crate) fn judge<S: Store>(
    store: &S,
    op: BinaryOp,
    left: &S::Held,
    right: &S::Held,
) -> Option<bool>
    requires op { op ≢ Add }
    requires left { S.owns store.now left.now }
    requires right { S.owns store.now right.now }
    requires text { is_some (text_units (S.meaning store.now left.now)) || is_some (text_units (S.meaning store.now right.now)) ≡ true }
    ensures { binary_value op (S.meaning store.now left.now) (S.meaning store.now right.now) ≡ judged result }
{
    match store.text(left) {
        Some(left) => judge_text(store, op, &left, right),
        None => judge_apart(op),
    }
}

// What an operator other than `+` finds of a text and a value that is held.
fn judge_text<S: Store>(
    store: &S,
    op: BinaryOp,
    left: &TextView<'_>,
    right: &S::Held,
) -> Option<bool>
    requires op { op ≢ Add }
    requires right { S.owns store.now right.now }
    ensures { binary_value op (Text (units left.now)) (S.meaning store.now right.now) ≡ judged result }
{
    match store.text(right) {
        Some(right) => judge_texts(op, left, &right),
        None => judge_apart(op),
    }
}

// What an operator other than `+` finds of two texts (ECMA-262, 7.2.13 and 7.2.16).
fn judge_texts(op: BinaryOp, left: &TextView<'_>, right: &TextView<'_>) -> Option<bool>
    requires { op ≢ Add }
    ensures { binary_value op (Text (units left.now)) (Text (units right.now)) ≡ judged result }
{
    match op {
        BinaryOp::Less => Some(left.order(right).is_lt()),
        BinaryOp::Greater => Some(right.order(left).is_lt()),
        BinaryOp::LessEqual => Some(!right.order(left).is_lt()),
        BinaryOp::GreaterEqual => Some(!left.order(right).is_lt()),
        BinaryOp::Same => Some(left.same(right)),
        BinaryOp::NotSame => Some(!left.same(right)),
        _ => None,
    }
}

// What an operator other than `+` finds of a text and another value.
fn judge_apart(op: BinaryOp) -> Option<bool>
    requires { op ≢ Add }
    ensures left { (text : List ℕ) (other : Value) → text_units other ≡ None → binary_value op (Text text) other ≡ judged result }
    ensures right { (text : List ℕ) (other : Value) → text_units other ≡ None → binary_value op other (Text text) ≡ judged result }
{
    match op {
        BinaryOp::Same => Some(false),
        BinaryOp::NotSame => Some(true),
        _ => None,
    }
}
