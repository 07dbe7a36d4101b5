//! What a store's calls stand for. The functions do nothing: what they ensure holds of all heaps.

ghost use Rattle.std.specs.Prelude.{◌≡◌, ◌+◌, ◌++◌, ◌∷◌, [], ℕ, List, length, true, if◌then◌else◌};
ghost use Rattle.snap_base.specs.declared.stop.Stop.TheVariants.{TooLong, TooManyNodes};
ghost use Rattle.snap_graph.specs.declared.kind.Kind.{Kind};
ghost use Rattle.snap_graph.specs.declared.value.Value.{Value};
ghost use Rattle.snap_store.specs.Calls.{has_room, is_full, is_long};
ghost use Rattle.spec_values.specs.Access.{is_array};
ghost use Rattle.spec_values.specs.Answer.{Gave, Heap, Stopped};
ghost use Rattle.spec_values.specs.Operations.{kind_of, make, new_node, push_element, put_own, with_more, with_nodes, with_own};

/// The calls that have a limit are the operations that have one: they stop exactly where a call is refused
/// otherwise than for want of memory, and give what the call leaves.
pub fn calls_are_operations()
    ensures made { (kind : Kind) (prototype : Value) (heap : Heap) → make kind prototype heap
        ≡ (if has_room heap.private_nodes
        then Gave (length heap.nodes)
        (record { nodes = heap.nodes ++ new_node kind prototype ∷ []; private_nodes = heap.private_nodes + 1; keys = heap.keys })
        else Stopped TooManyNodes heap) }
    ensures put { (number : ℕ) (key : List ℕ) (value : Value) (heap : Heap) → put_own number key value heap
        ≡ (if is_full heap.nodes number key then Stopped TooLong heap
        else Gave tt (with_nodes heap (with_own heap.nodes number key value))) }
    ensures pushed { (number : ℕ) (value : Value) (heap : Heap)
        → is_array (kind_of heap.nodes number) ≡ true → push_element number value heap
        ≡ (if is_long heap.nodes number then Stopped TooLong heap else Gave tt (with_nodes heap (with_more heap.nodes number value))) }
{}
