//! Literals, which a store holds once however often they are evaluated.

ghost use Rattle.std.specs.Prelude.{◌≡◌, None, IsSome, OnOk, length};
ghost use Rattle.snap_action.specs.Gives.{Gives, as_held};
ghost use Rattle.snap_action.specs.Literals.{StandsFor};
ghost use Rattle.snap_graph.specs.Values.{IsPlace};
ghost use Rattle.spec_values.specs.Answer.{give};

use crate::calls::hold_value;
use crate::fault::Abrupt;
use crate::texts::hold_again;
use snap_graph::Value;
use snap_store::Store;

/// A literal: its value, and what a store holds of it, once it was asked for.
#[derive(Drop)]
pub struct Literal<H> {
    value: Value,
    held: Option<H>,
}

impl<H: Drop> Literal<H> {
    /// The literal of a value. No store holds it yet. It takes no memory.
    pub fn new(value: Value) -> Literal<H>
        ensures value { result.value ≡ value }
        ensures known { result.held ≡ None }
    {
        Literal { value, held: None }
    }

    /// Its value.
    pub fn value(&self) -> &Value
        ensures { result.now ≡ self.now.value }
    {
        &self.value
    }
}

/// The value of a literal, held. The first time it is held anew, and what is held is kept; from then on it is held again, which
/// copies no text.
pub fn hold_literal<S: Store>(
    store: &mut S,
    literal: &mut Literal<S::Held>,
) -> Result<S::Held, Abrupt<S::Held>>
    requires place { IsPlace (length (S.view store.old).nodes) literal.old.value }
    requires known { StandsFor S.Store store.old literal.old }
    ensures gives { Gives S.Store store.old store.new (as_held S.Store store.new) result (give literal.old.value) }
    ensures view { S.view store.new ≡ S.view store.old }
    ensures value { literal.new.value ≡ literal.old.value }
    ensures known { StandsFor S.Store store.new literal.new }
    ensures kept { OnOk result (IsSome literal.new.held) }
    ensures stays { IsSome literal.old.held → literal.new ≡ literal.old }
{
    match &literal.held {
        Some(held) => hold_again(store, held),
        None => hold_first(store, literal),
    }
}

// Holds the value of a literal, and keeps what is held.
fn hold_first<S: Store>(
    store: &mut S,
    literal: &mut Literal<S::Held>,
) -> Result<S::Held, Abrupt<S::Held>>
    requires place { IsPlace (length (S.view store.old).nodes) literal.old.value }
    requires known { StandsFor S.Store store.old literal.old }
    ensures gives { Gives S.Store store.old store.new (as_held S.Store store.new) result (give literal.old.value) }
    ensures view { S.view store.new ≡ S.view store.old }
    ensures value { literal.new.value ≡ literal.old.value }
    ensures known { StandsFor S.Store store.new literal.new }
    ensures kept { OnOk result (IsSome literal.new.held) }
{
    let first = hold_value(store, &literal.value)?;
    let held = hold_again(store, &first)?;
    literal.held = Some(first);
    Ok(held)
}
