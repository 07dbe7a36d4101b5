//! Accesses of matching heaps go alike. The function does nothing: what it ensures holds of all heaps that match.

ghost use Rattle.snap_graph.specs.declared.value.Value.{Value};
ghost use Rattle.spec_values.specs.Access.{delete, get, set};
ghost use Rattle.spec_values.specs.Answer.{Heap};
ghost use Rattle.laws_alike.specs.Alike.{Alike, Same, Values, World};
ghost use Rattle.laws_alike.specs.Going.{Answers};

/// From heaps that match, and of a base, a key and a value that agree with others, a read, a write and a delete
/// end as with those others: with results or thrown values that agree, or with the same stop. The heaps that are
/// left match again: as many nodes were made, and the same keys were used.
pub fn accesses_go_alike()
    ensures get { (world : World) (one other : Heap) (base other_base key other_key : Value)
        → Alike world one other → Values world base other_base → Values world key other_key
        → Answers Alike Values world (get base key one) (get other_base other_key other) }
    ensures set { (world : World) (one other : Heap) (base other_base key other_key value other_value : Value)
        → Alike world one other → Values world base other_base → Values world key other_key → Values world value other_value
        → Answers Alike Same world (set base key value one) (set other_base other_key other_value other) }
    ensures delete { (world : World) (one other : Heap) (base other_base key other_key : Value)
        → Alike world one other → Values world base other_base → Values world key other_key
        → Answers Alike Same world (delete base key one) (delete other_base other_key other) }
{}
