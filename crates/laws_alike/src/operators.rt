//! Operators on values that agree. The functions do nothing: what they ensure holds of all worlds.

ghost use Rattle.std.specs.Prelude.{◌≡◌};
ghost use Rattle.snap_graph.specs.declared.value.Value.{Value};
ghost use Rattle.spec_values.specs.declared.operator.BinaryOp.{BinaryOp};
ghost use Rattle.spec_values.specs.declared.operator.UnaryOp.{UnaryOp};
ghost use Rattle.spec_values.specs.Access.{or_stop};
ghost use Rattle.spec_values.specs.Answer.{Heap};
ghost use Rattle.spec_values.specs.Conversions.{number_of, text_of, truth_of};
ghost use Rattle.spec_values.specs.Operators.{binary_value, same_value, unary_value};
ghost use Rattle.laws_alike.specs.Alike.{Alike, Values, World};
ghost use Rattle.laws_alike.specs.Going.{GoAlike};

/// Values that agree have the same number, the same text and the same truth value.
pub fn agreeing_values_convert_alike()
    ensures number { (world : World) (value other : Value) → Values world value other → number_of value ≡ number_of other }
    ensures text { (world : World) (value other : Value) → Values world value other → text_of value ≡ text_of other }
    ensures truth { (world : World) (value other : Value) → Values world value other → truth_of value ≡ truth_of other }
{}

/// Operators give the same of values that agree, where these are of heaps that match: so does `===`, since no node
/// is paired with two.
pub fn operators_give_the_same()
    ensures same { (world : World) (one other : Heap) (left other_left right other_right : Value)
        → Alike world one other → Values world left other_left → Values world right other_right
        → same_value left right ≡ same_value other_left other_right }
    ensures binary { (world : World) (one other : Heap) (op : BinaryOp) (left other_left right other_right : Value)
        → Alike world one other → Values world left other_left → Values world right other_right
        → binary_value op left right ≡ binary_value op other_left other_right }
    ensures unary { (world : World) (op : UnaryOp) (value other : Value) → Values world value other → unary_value op value ≡ unary_value op other }
{}

/// What an operator gives is no node, so that as an action it goes alike.
pub fn operators_go_alike()
    ensures binary { (world : World) (op : BinaryOp) (left other_left right other_right : Value)
        → Values world left other_left → Values world right other_right
        → GoAlike Alike Values world (or_stop (binary_value op left right)) (or_stop (binary_value op other_left other_right)) }
    ensures unary { (world : World) (op : UnaryOp) (value other : Value) → Values world value other
        → GoAlike Alike Values world (or_stop (unary_value op value)) (or_stop (unary_value op other)) }
{}
