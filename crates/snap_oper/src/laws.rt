//! What may be given to an operator. The function does nothing: what it ensures holds of all values.

ghost use Rattle.std.specs.Prelude.{ℕ};
ghost use Rattle.snap_graph.specs.declared.value.Value.{Value};
ghost use Rattle.snap_graph.specs.Values.{IsValue};
ghost use Rattle.snap_oper.specs.Given.{IsOperand};

/// Each value of a heap may be given to an operator.
pub fn values_are_operands()
    ensures { (count : ℕ) (value : Value) → IsValue count value → IsOperand value }
{}
