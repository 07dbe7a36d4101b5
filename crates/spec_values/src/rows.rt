//! Single cases of the definitions, which the checker computes.

ghost use Rattle.std.specs.Prelude.{◌≡◌, ◌^◌, ◌-◌, [], ◌∷◌, pos, negsuc, false, true, codes, None, Some, Ok, Err};
ghost use Rattle.snap_base.specs.declared.stop.Stop.TheVariants.{NotInProfile, NotSafeInteger};
ghost use Rattle.snap_graph.specs.declared.value.Value.TheVariants.{Undefined, Null, Bool as Truth, Int, Text, Node as At};
ghost use Rattle.spec_values.specs.declared.operator.BinaryOp.TheVariants as binary;
ghost use Rattle.spec_values.specs.declared.operator.UnaryOp.TheVariants as unary;
ghost use Rattle.spec_values.specs.Access.{delete, get, set};
ghost use Rattle.spec_values.specs.Answer.{Gave, Stopped, Threw};
ghost use Rattle.spec_values.specs.Asking.{find_global, has_own, set_global, type_of};
ghost use Rattle.spec_values.specs.Operators.{binary_value, unary_value};
ghost use Rattle.spec_values.specs.Rows.{error_of, error_with, heap_of, holding};

/// Reading from intrinsics, texts and what has no properties.
pub fn rows_of_get()
    ensures own { get (At 10) (Text (codes "keys")) (heap_of [] 0 []) ≡ Gave (At 50) (heap_of [] 0 (codes "keys" ∷ [])) }
    ensures inherited { get (At 19) (Text (codes "hasOwnProperty")) (heap_of [] 0 []) ≡ Gave (At 24) (heap_of [] 0 (codes "hasOwnProperty" ∷ [])) }
    ensures absent { get (At 19) (Text (codes "x")) (heap_of [] 0 []) ≡ Gave Undefined (heap_of [] 0 (codes "x" ∷ [])) }
    ensures unit { get (Text (codes "ab")) (Int (pos 1)) (heap_of [] 0 []) ≡ Gave (Text (codes "b")) (heap_of [] 0 []) }
    ensures spelled { get (Text (codes "ab")) (Text (codes "1")) (heap_of [] 0 []) ≡ Gave (Text (codes "b")) (heap_of [] 0 []) }
    ensures units { get (Text (codes "ab")) (Text (codes "length")) (heap_of [] 0 []) ≡ Gave (Int (pos 2)) (heap_of [] 0 (codes "length" ∷ [])) }
    ensures method { get (Text (codes "ab")) (Text (codes "slice")) (heap_of [] 0 []) ≡ Gave (At 34) (heap_of [] 0 (codes "slice" ∷ [])) }
    ensures elements { get (At 2) (Text (codes "length")) (heap_of [] 0 []) ≡ Gave (Int (pos 0)) (heap_of [] 0 (codes "length" ∷ [])) }
    ensures special { get (At 10) (Text (codes "name")) (heap_of [] 0 []) ≡ Stopped NotInProfile (heap_of [] 0 (codes "name" ∷ [])) }
    ensures prototype { get (At 19) (Text (codes "__proto__")) (heap_of [] 0 []) ≡ Stopped NotInProfile (heap_of [] 0 (codes "__proto__" ∷ [])) }
    ensures node_key { get (At 19) (At 19) (heap_of [] 0 []) ≡ Stopped NotInProfile (heap_of [] 0 []) }
    ensures undefined { get Undefined (At 5) (heap_of [] 0 []) ≡ Threw (At 62) (heap_of (error_with (codes "no properties") ∷ []) 1 (codes "message" ∷ [])) }
    ensures size { get (At 4) (Text (codes "size")) (heap_of [] 0 []) ≡ Threw (At 62) (heap_of (error_with (codes "wrong receiver") ∷ []) 1 (codes "size" ∷ codes "message" ∷ [])) }
{}

/// Writing to and deleting from intrinsics, which are frozen, and writing to primitives.
pub fn rows_of_set()
    ensures frozen { set (At 0) (Text (codes "x")) (Int (pos 1)) (heap_of [] 0 []) ≡ Threw (At 62) (heap_of (error_with (codes "not writable") ∷ []) 1 (codes "x" ∷ codes "message" ∷ [])) }
    ensures inherited { set (At 62) (Text (codes "message")) Null (heap_of (error_with [] ∷ []) 1 []) ≡ Gave tt (heap_of (record (error_with []) { properties = record { key = codes "message"; value = Null } ∷ [] } ∷ []) 1 (codes "message" ∷ [])) }
    ensures shadowed { set (At 62) (Text (codes "name")) Null (heap_of (error_with [] ∷ []) 1 []) ≡ Threw (At 63) (heap_of (error_with [] ∷ error_with (codes "not writable") ∷ []) 2 (codes "name" ∷ codes "message" ∷ [])) }
    ensures primitive { set (Int (pos 1)) (Text (codes "x")) Null (heap_of [] 0 []) ≡ Threw (At 62) (heap_of (error_with (codes "not writable") ∷ []) 1 (codes "x" ∷ codes "message" ∷ [])) }
    ensures deleted { delete (At 62) (Text (codes "message")) (heap_of (error_with [] ∷ []) 1 []) ≡ Gave true (heap_of (record (error_with []) { properties = [] } ∷ []) 1 (codes "message" ∷ [])) }
    ensures size { delete (At 5) (Text (codes "size")) (heap_of [] 0 []) ≡ Threw (At 62) (heap_of (error_with (codes "not writable") ∷ []) 1 (codes "size" ∷ codes "message" ∷ [])) }
{}

/// What is asked of values and of their own properties.
pub fn rows_of_tests()
    ensures function { type_of (At 10) (heap_of [] 0 []) ≡ Gave (codes "function") (heap_of [] 0 []) }
    ensures null { type_of Null (heap_of [] 0 []) ≡ Gave (codes "object") (heap_of [] 0 []) }
    ensures own { has_own (At 19) (Text (codes "log")) (heap_of [] 0 []) ≡ Gave true (heap_of [] 0 (codes "log" ∷ [])) }
    ensures inherited { has_own (At 19) (Text (codes "constructor")) (heap_of [] 0 []) ≡ Gave false (heap_of [] 0 (codes "constructor" ∷ [])) }
    ensures undefined_held { has_own (At 62) (Text (codes "x")) (heap_of (holding (codes "x") Undefined ∷ []) 1 []) ≡ Gave true (heap_of (holding (codes "x") Undefined ∷ []) 1 (codes "x" ∷ [])) }
    ensures unit { has_own (Text (codes "ab")) (Int (pos 1)) (heap_of [] 0 []) ≡ Gave true (heap_of [] 0 []) }
    ensures units { has_own (Text (codes "ab")) (Text (codes "length")) (heap_of [] 0 []) ≡ Gave true (heap_of [] 0 (codes "length" ∷ [])) }
    ensures size { has_own (At 5) (Text (codes "size")) (heap_of [] 0 []) ≡ Gave true (heap_of [] 0 (codes "size" ∷ [])) }
    ensures special { has_own (At 10) (Text (codes "name")) (heap_of [] 0 []) ≡ Stopped NotInProfile (heap_of [] 0 (codes "name" ∷ [])) }
    ensures nothing { has_own Undefined (Text (codes "x")) (heap_of [] 0 []) ≡ Threw (At 62) (heap_of (error_with (codes "no properties") ∷ []) 1 (codes "x" ∷ codes "message" ∷ [])) }
{}

/// Names that no scope holds: absent is not undefined, and a write uses no key.
pub fn rows_of_globals()
    ensures found { find_global 62 (codes "x") (heap_of (holding (codes "x") Undefined ∷ []) 1 []) ≡ Gave (Some Undefined) (heap_of (holding (codes "x") Undefined ∷ []) 1 (codes "x" ∷ [])) }
    ensures inherited { find_global 62 (codes "hasOwnProperty") (heap_of (holding (codes "x") Null ∷ []) 1 []) ≡ Gave (Some (At 24)) (heap_of (holding (codes "x") Null ∷ []) 1 (codes "hasOwnProperty" ∷ [])) }
    ensures absent { find_global 62 (codes "y") (heap_of (holding (codes "x") Null ∷ []) 1 []) ≡ Gave None (heap_of (holding (codes "x") Null ∷ []) 1 (codes "y" ∷ [])) }
    ensures written { set_global 62 (codes "x") (Int (pos 1)) (heap_of (holding (codes "x") Null ∷ []) 1 []) ≡ Gave tt (heap_of (holding (codes "x") (Int (pos 1)) ∷ []) 1 []) }
    ensures shadowed { set_global 62 (codes "hasOwnProperty") Null (heap_of (holding (codes "x") Null ∷ []) 1 []) ≡ Threw (At 63) (heap_of (holding (codes "x") Null ∷ error_with (codes "not writable") ∷ []) 2 (codes "message" ∷ [])) }
    ensures gone { set_global 62 (codes "y") Null (heap_of (holding (codes "x") Null ∷ []) 1 []) ≡ Threw (At 63) (heap_of (holding (codes "x") Null ∷ error_of 8 (codes "not defined") ∷ []) 2 (codes "message" ∷ [])) }
{}

/// Operators at their limits.
pub fn rows_of_operators()
    ensures past { binary_value binary.Add (Int (pos 9007199254740991)) (Int (pos 1)) ≡ Err NotSafeInteger }
    ensures minus_zero { binary_value binary.Mul (Int (pos 0)) (Int (negsuc 0)) ≡ Ok (Int (pos 0)) }
    ensures dividend { binary_value binary.Rem (Int (pos 7)) (Int (negsuc 2)) ≡ Ok (Int (pos 1)) }
    ensures negative { binary_value binary.Rem (Int (negsuc 6)) (Int (pos 3)) ≡ Ok (Int (negsuc 0)) }
    ensures inexact { binary_value binary.Div (Int (pos 7)) (Int (pos 2)) ≡ Err NotSafeInteger }
    ensures exact { binary_value binary.Div (Int (pos 6)) (Int (negsuc 1)) ≡ Ok (Int (negsuc 2)) }
    ensures joined { binary_value binary.Add (Text (codes "a")) Undefined ≡ Ok (Text (codes "aundefined")) }
    ensures joined_left { binary_value binary.Add (Truth true) (Text (codes "a")) ≡ Ok (Text (codes "truea")) }
    ensures added { binary_value binary.Add (Truth true) Null ≡ Ok (Int (pos 1)) }
    ensures texts { binary_value binary.Less (Text (codes "10")) (Text (codes "9")) ≡ Ok (Truth true) }
    ensures numbers { binary_value binary.Less (Int (pos 10)) (Int (pos 9)) ≡ Ok (Truth false) }
    ensures mixed { binary_value binary.Less (Text (codes "1")) (Int (pos 2)) ≡ Err NotInProfile }
    ensures same { binary_value binary.Same (Text (codes "1")) (Int (pos 1)) ≡ Ok (Truth false) }
    ensures shifted { binary_value binary.Shl (Int (pos 1)) (Int (pos 31)) ≡ Ok (Int (negsuc (2 ^ 31 - 1))) }
    ensures count { binary_value binary.Shl (Int (pos 1)) (Int (pos 33)) ≡ Ok (Int (pos 2)) }
    ensures signed { binary_value binary.Shr (Int (negsuc 4)) (Int (pos 1)) ≡ Ok (Int (negsuc 2)) }
    ensures unsigned { binary_value binary.UShr (Int (negsuc 0)) (Int (pos 0)) ≡ Ok (Int (pos (2 ^ 32 - 1))) }
    ensures wrapped { binary_value binary.BitOr (Int (pos 4294967296)) (Int (pos 5)) ≡ Ok (Int (pos 5)) }
    ensures inverted { unary_value unary.BitNot (Int (pos 5)) ≡ Ok (Int (negsuc 5)) }
    ensures empty { unary_value unary.Not (Text []) ≡ Ok (Truth true) }
    ensures text { unary_value unary.Plus (Text (codes "1")) ≡ Err NotInProfile }
{}
