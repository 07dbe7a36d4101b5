//! Heaps match in a world exactly where their graphs match by its pairs. The functions do nothing: what they
//! ensure holds of all heaps.

ghost use Rattle.std.specs.Prelude.{◌≡◌, ◌==◌, ℕ, List, length};
ghost use Rattle.snap_graph.specs.declared.pairing.Pair.{Pair};
ghost use Rattle.snap_graph.specs.declared.value.Value.{Value};
ghost use Rattle.snap_graph.specs.Matching.{Matches};
ghost use Rattle.spec_values.specs.Answer.{Heap};
ghost use Rattle.laws_alike.specs.Alike.{Alike, Lists, Numbers, Values, World};

/// Heaps whose graphs match from some roots, with as many private nodes and the same keys used, match in the world
/// of that pairing. Heaps that match in a world have graphs that match by its pairs, from all roots that agree.
pub fn matching_states_match()
    ensures alike { (one other : Heap) (roots other_roots : List Value) (pairs : List Pair)
        → Matches one.nodes roots other.nodes other_roots pairs → one.private_nodes ≡ other.private_nodes → one.keys ≡ other.keys
        → Alike (record { pairs = pairs; count = length one.nodes; other_count = length other.nodes }) one other }
    ensures matches { (world : World) (one other : Heap) (roots other_roots : List Value)
        → Alike world one other → Lists Values world roots other_roots
        → Matches one.nodes roots other.nodes other_roots world.pairs }
{}

/// In heaps that match, two numbers are of one node exactly where those that they are paired with are.
pub fn paired_numbers_are_the_same_together()
    ensures { (world : World) (one other : Heap) (first second next last : ℕ)
        → Alike world one other → Numbers world first second → Numbers world next last
        → (first == next) ≡ (second == last) }
{}
