//! What an action on a heap is on a state that has more than a heap. The functions do nothing: what they ensure holds of
//! all stores.

ghost use Rattle.std.specs.Prelude.{ℕ, List, Result};
ghost use Rattle.snap_graph.specs.declared.value.Value.{Value};
ghost use Rattle.snap_action.specs.declared.fault.Abrupt.{Abrupt};
ghost use Rattle.snap_action.specs.Gives.{Gives, GivesMore, as_held, as_is, result_at, same_cut};
ghost use Rattle.spec_values.specs.Answer.{Action};
ghost use Rattle.spec_values.specs.State.{lift};

use snap_store::Store;

/// A call that gives a held value by an action on the heap gives it, on a state that has more, by that action at a place
/// of the source: the rest of the state stays, and a stop is one at that place.
pub fn held_results_lift<S: Store, X>()
    ensures { (place : ℕ) (printed : X → List ℕ) (rest : X) (before after : S) (result : Result S.Held (Abrupt S.Held)) (action : Action Value)
        → Gives S.Store before after (as_held S.Store after) result action
        → GivesMore S.Store same_cut printed before after rest rest (as_held S.Store after) (result_at place result) (lift place action) }
{}

/// So does a call whose result is what it is.
pub fn results_lift<S: Store, X, A>()
    ensures { (place : ℕ) (printed : X → List ℕ) (rest : X) (before after : S) (result : Result A (Abrupt S.Held)) (action : Action A)
        → Gives S.Store before after as_is result action
        → GivesMore S.Store same_cut printed before after rest rest as_is (result_at place result) (lift place action) }
{}
