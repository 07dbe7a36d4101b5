//! Each operation of a heap leaves a heap. The functions do nothing: what they ensure holds of all heaps.

ghost use Rattle.std.specs.Prelude.{◌≡◌, ◌++◌, ◌∷◌, [], ℕ, Bool, false, List, Some, length, slice_get};
ghost use Rattle.snap_graph.specs.declared.kind.Kind.{Kind};
ghost use Rattle.snap_graph.specs.declared.kind.Kind.TheVariants.{Array, Native, Resource};
ghost use Rattle.snap_graph.specs.declared.node.Node.{Node};
ghost use Rattle.snap_graph.specs.declared.value.Value.{Value};
ghost use Rattle.snap_graph.specs.Intrinsics.{IsNative};
ghost use Rattle.snap_graph.specs.Lawful.{IsElementKey, IsLawful, IsPrototype};
ghost use Rattle.snap_graph.specs.Values.{IsValue};
ghost use Rattle.spec_values.specs.Operations.{MayHold, new_node, with_closed, with_element, with_fewer, with_frozen, with_more, with_own, without_own};

/// A heap with one more node is a heap, where the node's prototype is one that its kind may have, and a
/// built-in function has a number of one.
pub fn making_keeps_heaps()
    ensures { (nodes : List Node) (kind : Kind) (prototype : Value) → IsLawful nodes → IsPrototype nodes kind prototype
        → ((number : ℕ) → kind ≡ Native number → IsNative number) → IsLawful (nodes ++ new_node kind prototype ∷ []) }
{}

/// A property is written, created or removed on a node that is not frozen; none of an array names an
/// element or how many there are.
pub fn properties_keep_heaps()
    ensures put { (nodes : List Node) (number : ℕ) (node : Node) (key : List ℕ) (value : Value)
        → IsLawful nodes → slice_get nodes number ≡ Some node → node.frozen ≡ false → IsValue (length nodes) value
        → (node.kind ≡ Array → IsElementKey key → ⊥) → IsLawful (with_own nodes number key value) }
    ensures removed { (nodes : List Node) (number : ℕ) (node : Node) (key : List ℕ)
        → IsLawful nodes → slice_get nodes number ≡ Some node → node.frozen ≡ false → IsLawful (without_own nodes number key) }
{}

/// An element is written, put behind the others or taken from the end, where the node may hold it.
pub fn elements_keep_heaps()
    ensures set { (nodes : List Node) (number : ℕ) (node : Node) (place : ℕ) (value : Value)
        → IsLawful nodes → slice_get nodes number ≡ Some node → MayHold (length nodes) node.kind node.frozen value
        → IsLawful (with_element nodes number place value) }
    ensures pushed { (nodes : List Node) (number : ℕ) (node : Node) (value : Value)
        → IsLawful nodes → slice_get nodes number ≡ Some node → MayHold (length nodes) node.kind node.frozen value
        → IsLawful (with_more nodes number value) }
    ensures popped { (nodes : List Node) (number : ℕ) (node : Node)
        → IsLawful nodes → slice_get nodes number ≡ Some node → node.kind ≡ Array → node.frozen ≡ false
        → IsLawful (with_fewer nodes number) }
{}

/// A node is frozen, and a resource is closed.
pub fn marks_keep_heaps()
    ensures frozen { (nodes : List Node) (number : ℕ) (node : Node)
        → IsLawful nodes → slice_get nodes number ≡ Some node → IsLawful (with_frozen nodes number) }
    ensures closed { (nodes : List Node) (number resource : ℕ) (node : Node) (closed : Bool)
        → IsLawful nodes → slice_get nodes number ≡ Some node → node.kind ≡ Resource resource closed
        → IsLawful (with_closed nodes number) }
{}
