//! One action after another, and actions on heaps lifted to states, go alike. The functions do nothing: what they
//! ensure holds of all actions.

ghost use Rattle.std.specs.Prelude.{◌≡◌, ℕ};
ghost use Rattle.snap_graph.specs.declared.value.Value.{Value};
ghost use Rattle.spec_values.specs.Answer.{◌>>=◌ as ◌and_then◌, Action, Answer, give, stop, throw_value};
ghost use Rattle.spec_values.specs.State.{lift};
ghost use Rattle.laws_alike.specs.Alike.{Alike, Grows, Values, World};
ghost use Rattle.laws_alike.specs.Going.{GoAlike, StatesAlike, Stays};

use crate::world::Related;

/// One action and then another go alike, where the first ones do and, in every later world and on results that
/// have in common what they must, the second ones do. A result, a throw and a stop go alike at once.
pub fn actions_go_alike<W, T: Related, A: Related, B: Related>()
    ensures bind { (world : World) (x y : T → Answer W T A) (f g : A → T → Answer W T B) → GoAlike T.common A.common world x y
        → ((after : World) → Grows world after → (a b : A) → A.common after a b → GoAlike T.common B.common after (f a) (g b))
        → GoAlike T.common B.common world (x and_then f) (y and_then g) }
    ensures give { (world : World) (a b : A) → A.common world a b → GoAlike {W = W} T.common A.common world (give a) (give b) }
    ensures throw { (world : World) (value other : Value) → Values world value other
        → GoAlike {W = W} T.common A.common world (throw_value value) (throw_value other) }
    ensures stop { (world : World) (why : W) → GoAlike T.common A.common world (stop why) (stop why) }
{}

/// An action on heaps is an action on states that goes alike where it does, from states of which the rest has
/// something in common that stays so in later worlds. It stops at the same place.
pub fn lifted_actions_go_alike<X: Related, A: Related>()
    ensures { (world : World) (place : ℕ) (x y : Action A) → Stays X.common → GoAlike Alike A.common world x y
        → GoAlike (StatesAlike X.common) A.common world (lift place x) (lift place y) }
{}
