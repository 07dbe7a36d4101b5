//! What operators give. The functions do nothing: what they ensure holds of all values.

ghost use Rattle.std.specs.Prelude.{◌≡◌, ℕ, true, Ok};
ghost use Rattle.snap_graph.specs.declared.value.Value.{Value};
ghost use Rattle.snap_graph.specs.Values.{IsValue};
ghost use Rattle.spec_values.specs.declared.operator.BinaryOp.{BinaryOp};
ghost use Rattle.spec_values.specs.declared.operator.UnaryOp.{UnaryOp};
ghost use Rattle.spec_values.specs.Operators.{binary_value, same_value, unary_value};

/// What an operator gives is a value, and an integer among them is safe.
pub fn operators_give_values()
    ensures binary { (count : ℕ) (op : BinaryOp) (left right value : Value)
        → binary_value op left right ≡ Ok value → IsValue count value }
    ensures unary { (count : ℕ) (op : UnaryOp) (operand value : Value)
        → IsValue count operand → unary_value op operand ≡ Ok value → IsValue count value }
{}

/// `===` finds values the same exactly where they are one value.
pub fn same_values_are_one()
    ensures one { (value other : Value) → same_value value other ≡ true → value ≡ other }
    ensures found { (value other : Value) → value ≡ other → same_value value other ≡ true }
{}
