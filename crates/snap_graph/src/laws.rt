//! The laws of heaps, own keys, paths and matching. Each function does nothing: what it ensures holds of
//! all of them.

ghost use Rattle.std.specs.Prelude.{◌≡◌, ◌==◌, ◌<◌, ℕ, All, List, Option, None, Some, true, codes, filter, length, map, slice_get, []};
ghost use Rattle.std.specs.Cmp.{IsTotalOrder};
ghost use Rattle.std.specs.Fmt.{decimal};
ghost use Rattle.std.specs.List.Sorted.{IsNonDecreasingBy};
ghost use Rattle.std.specs.declared.cmp.Ordering.TheVariants.{Equal};
ghost use Rattle.snap_graph.specs.declared.kind.Kind.TheVariants.{Native};
ghost use Rattle.snap_graph.specs.declared.node.Node.{Node};
ghost use Rattle.snap_graph.specs.declared.pairing.Pair.{Pair};
ghost use Rattle.snap_graph.specs.declared.value.Property.{Property};
ghost use Rattle.snap_graph.specs.declared.value.Value.{Value};
ghost use Rattle.snap_graph.specs.Intrinsics.{intrinsics};
ghost use Rattle.snap_graph.specs.Lawful.{IsLawful};
ghost use Rattle.snap_graph.specs.Matching.{Agree, AreIsomorphic, Matches, turned};
ghost use Rattle.snap_graph.specs.OwnKeys.{array_index, index_end, key_rank, own_order};
ghost use Rattle.snap_graph.specs.Paths.{IsLeast, IsPathTo, path_cmp, path_value};
ghost use Rattle.snap_graph.specs.Values.{IsValue};

/// The intrinsics are 62 nodes, and a heap of their own. All are frozen, and those that are built-in
/// functions have their own numbers.
pub fn intrinsics_are_a_heap()
    ensures count { length intrinsics ≡ 62 }
    ensures lawful { IsLawful intrinsics }
    ensures frozen { All (λ node. node.frozen ≡ true) intrinsics }
    ensures numbered { (number own : ℕ) (node : Node) → slice_get intrinsics number ≡ Some node → node.kind ≡ Native own → own ≡ number }
{}

/// Array indices are the decimal texts of the numbers below 2^32 - 1, and no other texts.
pub fn indices_are_decimal()
    ensures only { (text : List ℕ) (n : ℕ) → array_index text ≡ Some n → (n < index_end) × (text ≡ decimal n) }
    ensures each { (n : ℕ) → n < index_end → array_index (decimal n) ≡ Some n }
{}

/// The last index, the first number that is none, and a number that is spelled otherwise.
pub fn last_index()
    ensures last { array_index (codes "4294967294") ≡ Some 4294967294 }
    ensures past { array_index (codes "4294967295") ≡ None }
    ensures spelled { array_index (codes "01") ≡ None }
    ensures none { array_index [] ≡ None }
{}

/// Own keys stand with indices first, ascending, and then the others. Of the properties at one place, which
/// are those of one index or those of no index, none is lost or added, and they stand as they were created.
pub fn own_keys_are_in_order()
    ensures ascending { (properties : List Property) → IsNonDecreasingBy (λ p. key_rank p.key) (own_order properties) }
    ensures stable { (properties : List Property) (place : ℕ)
        → filter (λ p. key_rank p.key == place) (own_order properties) ≡ filter (λ p. key_rank p.key == place) properties }
{}

/// Paths have one order, which tells any two apart, and there is one least path to a node at most.
pub fn paths_are_ordered()
    ensures total { IsTotalOrder path_cmp }
    ensures exact { (path other : List ℕ) → path_cmp path other ≡ Equal → path ≡ other }
    ensures least { (nodes : List Node) (roots : List Value) (number : ℕ) (path other : List ℕ)
        → IsLeast (IsPathTo nodes roots number) path → IsLeast (IsPathTo nodes roots number) other → path ≡ other }
{}

/// A heap is isomorphic to itself, from any roots in it.
pub fn heaps_match_themselves()
    ensures { (nodes : List Node) (roots : List Value) → IsLawful nodes → All (IsValue (length nodes)) roots
        → AreIsomorphic nodes roots nodes roots }
{}

/// Graphs that match do so the other way round.
pub fn matching_is_symmetric()
    ensures { (nodes others : List Node) (roots other_roots : List Value) (pairs : List Pair)
        → Matches nodes roots others other_roots pairs → Matches others other_roots nodes roots (map turned pairs) }
{}

/// In graphs that match, a path leads to values that agree.
pub fn matching_keeps_paths()
    ensures { (nodes others : List Node) (roots other_roots : List Value) (pairs : List Pair) (path : List ℕ) (value : Value)
        → Matches nodes roots others other_roots pairs → path_value nodes roots path ≡ Some value
        → (other : Value) × (path_value others other_roots path ≡ Some other) × Agree pairs value other }
{}
