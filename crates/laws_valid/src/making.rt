//! Functions and scopes are made valid, with what they hold, and slots are written. The functions do nothing: what they ensure
//! holds of all heaps.

ghost use Rattle.std.specs.Prelude.{◌≡◌, ℕ, All, List, ◌∷◌, length, slice_get, Some};
ghost use Rattle.snap_ast.specs.declared.tree.Tree.{Tree};
ghost use Rattle.snap_base.specs.declared.stop.Stop.{Stop};
ghost use Rattle.snap_base.specs.declared.stop.Stop.TheVariants.{TooManyNodes};
ghost use Rattle.snap_graph.specs.declared.kind.Kind.TheVariants.{Scope};
ghost use Rattle.snap_graph.specs.declared.kind.ScopeKind.{ScopeKind};
ghost use Rattle.snap_graph.specs.declared.node.Node.{Node};
ghost use Rattle.snap_graph.specs.declared.value.Value.{Value};
ghost use Rattle.snap_graph.specs.declared.value.Value.TheVariants.{Node as At};
ghost use Rattle.snap_graph.specs.Intrinsics.{intrinsics};
ghost use Rattle.spec_scopes.specs.declared.need.ScopeNeed.{ScopeNeed};
ghost use Rattle.spec_scopes.specs.Valid.{IsChain, IsFunctionIn, IsValid};
ghost use Rattle.spec_values.specs.Answer.{Gave, Heap, Stopped};
ghost use Rattle.spec_values.specs.Operations.{make_function, make_scope, set_element};
ghost use Rattle.laws_valid.specs.Leaving.{Anything, IsObject, IsOuter, IsScope, IsSlot, LeavesValid};

/// The intrinsics, which every heap begins with, are a graph that is valid for whatever scripts.
pub fn intrinsics_are_valid()
    ensures { (scripts : List Tree) → IsValid intrinsics scripts }
{}

/// A function that stands in its script in scopes as those that it closes over is made valid: the graph that is left is
/// valid, and the number given is that of a node that is no scope. Where there are too many nodes the heap is as it was.
pub fn functions_are_made_valid()
    ensures valid { (scripts : List Tree) (script number : ℕ) (scope : Value) (needs : List ScopeNeed) (heap : Heap) → IsValid heap.nodes scripts
        → IsFunctionIn scripts script number needs → IsChain heap.nodes scope needs → LeavesValid scripts IsObject (make_function script number scope heap) }
    ensures stopped { (script number : ℕ) (scope : Value) (heap after : Heap) (why : Stop) → make_function script number scope heap ≡ Stopped why after → (why ≡ TooManyNodes) × (after ≡ heap) }
{}

/// A scope is made valid inside another, or inside none, with slots that are empty or hold values that scripts can have. The
/// number given is that of a scope, and from it on there are it, with so many slots, and the scopes round it. Where there are
/// too many nodes the heap is as it was.
pub fn scopes_are_made_valid()
    ensures valid { (scripts : List Tree) (kind : ScopeKind) (outer : Value) (slots : List Value) (heap : Heap) → IsValid heap.nodes scripts
        → IsOuter heap.nodes outer → All (IsSlot heap.nodes) slots → LeavesValid scripts IsScope (make_scope kind outer slots heap) }
    ensures chain { (kind : ScopeKind) (outer : Value) (slots : List Value) (needs : List ScopeNeed) (number : ℕ) (heap after : Heap) → make_scope kind outer slots heap ≡ Gave number after
        → IsChain heap.nodes outer needs → IsChain after.nodes (At number) (record { kind = kind; slots = length slots } ∷ needs) }
    ensures stopped { (kind : ScopeKind) (outer : Value) (slots : List Value) (heap after : Heap) (why : Stop) → make_scope kind outer slots heap ≡ Stopped why after → (why ≡ TooManyNodes) × (after ≡ heap) }
{}

/// A slot of a scope is written with the mark of an empty place or with a value that scripts can have, and the graph stays
/// valid.
pub fn slots_keep_graphs_valid()
    ensures { (scripts : List Tree) (number place : ℕ) (node : Node) (kind : ScopeKind) (value : Value) (heap : Heap) → IsValid heap.nodes scripts
        → slice_get heap.nodes number ≡ Some node → node.kind ≡ Scope kind → IsSlot heap.nodes value → LeavesValid scripts Anything (set_element number place value heap) }
{}
