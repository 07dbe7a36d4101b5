//! What is asked of values of matching heaps, and names that a global object has, go alike. The functions do
//! nothing: what they ensure holds of all worlds.

ghost use Rattle.std.specs.Prelude.{ℕ, List, Option};
ghost use Rattle.snap_graph.specs.declared.value.Value.{Value};
ghost use Rattle.spec_values.specs.Asking.{defined, find_global, has_own, is_callable, set_global, type_of};
ghost use Rattle.laws_alike.specs.Alike.{Alike, Maybe, Numbers, Same, Values, World};
ghost use Rattle.laws_alike.specs.Going.{GoAlike};

/// Of values that agree, both can be called or neither can, `typeof` gives the same of both, and both or neither
/// have a property of their own under keys that agree.
pub fn questions_go_alike()
    ensures callable { (world : World) (value other : Value) → Values world value other
        → GoAlike Alike Same world (is_callable value) (is_callable other) }
    ensures type_of { (world : World) (value other : Value) → Values world value other → GoAlike Alike Same world (type_of value) (type_of other) }
    ensures has_own { (world : World) (base other_base key other_key : Value) → Values world base other_base → Values world key other_key
        → GoAlike Alike Same world (has_own base key) (has_own other_base other_key) }
{}

/// A name that no scope holds stands for values that agree, or for none, at global objects that are paired. Reading
/// what was found and writing it go alike.
pub fn globals_go_alike()
    ensures find { (world : World) (global other : ℕ) (text : List ℕ) → Numbers world global other
        → GoAlike Alike (Maybe Values) world (find_global global text) (find_global other text) }
    ensures read { (world : World) (found other : Option Value) → Maybe Values world found other
        → GoAlike Alike Values world (defined found) (defined other) }
    ensures write { (world : World) (global other : ℕ) (name : List ℕ) (value next : Value) → Numbers world global other → Values world value next
        → GoAlike Alike Same world (set_global global name value) (set_global other name next) }
{}
