//! Property access keeps a graph valid for scripts. The functions do nothing: what they ensure holds of all heaps.

ghost use Rattle.std.specs.Prelude.{◌≡◌, ℕ, List, false, length};
ghost use Rattle.snap_ast.specs.declared.tree.Tree.{Tree};
ghost use Rattle.snap_graph.specs.declared.kind.ScopeKind.{ScopeKind};
ghost use Rattle.snap_graph.specs.declared.value.Value.{Value};
ghost use Rattle.snap_graph.specs.Values.{IsValue};
ghost use Rattle.spec_scopes.specs.Valid.{IsScriptValue, IsValid};
ghost use Rattle.spec_values.specs.Access.{delete, get, is_array, set};
ghost use Rattle.spec_values.specs.Answer.{Heap};
ghost use Rattle.spec_values.specs.Asking.{find_global, has_own, is_callable, set_global, type_of};
ghost use Rattle.spec_values.specs.Operations.{kind_of, make_function, make_scope, set_element};
ghost use Rattle.spec_values.specs.State.{left_by};
ghost use Rattle.laws_valid.specs.Leaving.{Anything, IsScriptOption, LeavesValid, Stays};

/// However a read, a write, a delete or a test ends, the graph that it leaves is valid for the scripts for which it was, and
/// what is given or thrown is a value that scripts can have, so no scope. Only what is written has to be one before: a read
/// gives none whatever its base and its key are. So do names of a global object, which is no array.
pub fn accesses_keep_graphs_valid()
    ensures get { (scripts : List Tree) (base key : Value) (heap : Heap) → IsValid heap.nodes scripts → LeavesValid scripts IsScriptValue (get base key heap) }
    ensures set { (scripts : List Tree) (base key value : Value) (heap : Heap) → IsValid heap.nodes scripts
        → IsValue (length heap.nodes) key → IsScriptValue heap.nodes value → LeavesValid scripts Anything (set base key value heap) }
    ensures delete { (scripts : List Tree) (base key : Value) (heap : Heap) → IsValid heap.nodes scripts → LeavesValid scripts Anything (delete base key heap) }
    ensures has_own { (scripts : List Tree) (base key : Value) (heap : Heap) → IsValid heap.nodes scripts → LeavesValid scripts Anything (has_own base key heap) }
    ensures find_global { (scripts : List Tree) (global : ℕ) (name : List ℕ) (heap : Heap) → IsValid heap.nodes scripts → LeavesValid scripts IsScriptOption (find_global global name heap) }
    ensures set_global { (scripts : List Tree) (global : ℕ) (name : List ℕ) (value : Value) (heap : Heap) → IsValid heap.nodes scripts
        → IsScriptValue heap.nodes value → is_array (kind_of heap.nodes global) ≡ false → LeavesValid scripts Anything (set_global global name value heap) }
    ensures type_of { (scripts : List Tree) (value : Value) (heap : Heap) → IsValid heap.nodes scripts → LeavesValid scripts Anything (type_of value heap) }
    ensures is_callable { (scripts : List Tree) (value : Value) (heap : Heap) → IsValid heap.nodes scripts → LeavesValid scripts Anything (is_callable value heap) }
{}

/// However a read, a write, a delete or a test ends, a value that scripts can have stays one, and the scopes from a value on
/// are those that were, each with as many slots. So it is where a slot is written, and where a function or a scope is made.
pub fn values_and_chains_stay()
    ensures get { (base key : Value) (heap : Heap) → Stays heap.nodes (left_by (get base key heap)).nodes }
    ensures set { (base key value : Value) (heap : Heap) → Stays heap.nodes (left_by (set base key value heap)).nodes }
    ensures delete { (base key : Value) (heap : Heap) → Stays heap.nodes (left_by (delete base key heap)).nodes }
    ensures has_own { (base key : Value) (heap : Heap) → Stays heap.nodes (left_by (has_own base key heap)).nodes }
    ensures find_global { (global : ℕ) (name : List ℕ) (heap : Heap) → Stays heap.nodes (left_by (find_global global name heap)).nodes }
    ensures set_global { (global : ℕ) (name : List ℕ) (value : Value) (heap : Heap) → Stays heap.nodes (left_by (set_global global name value heap)).nodes }
    ensures slot { (number place : ℕ) (value : Value) (heap : Heap) → Stays heap.nodes (left_by (set_element number place value heap)).nodes }
    ensures function { (script number : ℕ) (scope : Value) (heap : Heap) → Stays heap.nodes (left_by (make_function script number scope heap)).nodes }
    ensures scope { (kind : ScopeKind) (outer : Value) (slots : List Value) (heap : Heap) → Stays heap.nodes (left_by (make_scope kind outer slots heap)).nodes }
{}
