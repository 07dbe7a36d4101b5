//! Property access leaves a heap and the nodes that were there, and uses its key once. The functions do
//! nothing: what they ensure holds of all heaps.

ghost use Rattle.std.specs.Prelude.{◌≡◌, ◌++◌, ◌∷◌, [], ℕ, List, false, length};
ghost use Rattle.snap_graph.specs.declared.value.Value.{Value};
ghost use Rattle.snap_graph.specs.Lawful.{IsLawful};
ghost use Rattle.snap_graph.specs.Values.{IsValue};
ghost use Rattle.spec_values.specs.Access.{delete, get, is_array, set};
ghost use Rattle.spec_values.specs.Answer.{Heap};
ghost use Rattle.spec_values.specs.Asking.{find_global, has_own, set_global};
ghost use Rattle.spec_values.specs.Leaving.{GivesAny, GivesValue, LeavesHeap, LeavesNodes};
ghost use Rattle.spec_values.specs.Operations.{kind_of};
ghost use Rattle.spec_values.specs.Uses.{HasUsed, used_by, used_by_test};

/// However a read, a write, a delete or a test of an own property ends, it leaves a heap, and what it throws is a value of that
/// heap. So do names of a global object, which is no array.
pub fn access_keeps_heaps()
    ensures get { (base key : Value) (heap : Heap) → IsLawful heap.nodes → LeavesHeap (get base key heap) }
    ensures set { (base key value : Value) (heap : Heap) → IsLawful heap.nodes
        → IsValue (length heap.nodes) key → IsValue (length heap.nodes) value → LeavesHeap (set base key value heap) }
    ensures delete { (base key : Value) (heap : Heap) → IsLawful heap.nodes → LeavesHeap (delete base key heap) }
    ensures has_own { (base key : Value) (heap : Heap) → IsLawful heap.nodes → LeavesHeap (has_own base key heap) }
    ensures find_global { (global : ℕ) (name : List ℕ) (heap : Heap) → IsLawful heap.nodes → LeavesHeap (find_global global name heap) }
    ensures set_global { (global : ℕ) (name : List ℕ) (value : Value) (heap : Heap) → IsLawful heap.nodes
        → IsValue (length heap.nodes) value → is_array (kind_of heap.nodes global) ≡ false → LeavesHeap (set_global global name value heap) }
{}

/// What a read gives is a value of the heap that it leaves: an integer is safe, and it is no mark of an empty place. So is
/// what a name stands for in a global object.
pub fn access_gives_values()
    ensures get { (base key : Value) (heap : Heap) → IsLawful heap.nodes → GivesValue (get base key heap) }
    ensures find_global { (global : ℕ) (name : List ℕ) (heap : Heap) → IsLawful heap.nodes → GivesAny (find_global global name heap) }
{}

/// However a read, a write or a delete ends, it used the text of its key once, if at all: not on undefined and
/// null, not for an element or a unit, and not where the key has no text. A test of an own property also uses it on
/// undefined and null. A name is used where it is looked for in a global object, and not again where it is written then.
/// Behind it comes `message`, where an error is thrown, and nothing else.
pub fn access_uses_its_key_once()
    ensures get { (base key : Value) (heap : Heap) → HasUsed (heap.keys ++ used_by heap.nodes base key) (get base key heap) }
    ensures set { (base key value : Value) (heap : Heap) → HasUsed (heap.keys ++ used_by heap.nodes base key) (set base key value heap) }
    ensures delete { (base key : Value) (heap : Heap) → HasUsed (heap.keys ++ used_by heap.nodes base key) (delete base key heap) }
    ensures has_own { (base key : Value) (heap : Heap) → HasUsed (heap.keys ++ used_by_test heap.nodes base key) (has_own base key heap) }
    ensures find_global { (global : ℕ) (name : List ℕ) (heap : Heap) → HasUsed (heap.keys ++ name ∷ []) (find_global global name heap) }
    ensures set_global { (global : ℕ) (name : List ℕ) (value : Value) (heap : Heap) → HasUsed heap.keys (set_global global name value heap) }
{}

/// However a read, a write, a delete or a test ends, each node that was there is there still, with its number, its kind,
/// its prototype and, unless it is an array, its elements.
pub fn access_keeps_nodes()
    ensures get { (base key : Value) (heap : Heap) → LeavesNodes heap.nodes (get base key heap) }
    ensures set { (base key value : Value) (heap : Heap) → LeavesNodes heap.nodes (set base key value heap) }
    ensures delete { (base key : Value) (heap : Heap) → LeavesNodes heap.nodes (delete base key heap) }
    ensures has_own { (base key : Value) (heap : Heap) → LeavesNodes heap.nodes (has_own base key heap) }
    ensures find_global { (global : ℕ) (name : List ℕ) (heap : Heap) → LeavesNodes heap.nodes (find_global global name heap) }
    ensures set_global { (global : ℕ) (name : List ℕ) (value : Value) (heap : Heap) → LeavesNodes heap.nodes (set_global global name value heap) }
{}
