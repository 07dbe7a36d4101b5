//! What is not in this profile.

ghost use Rattle.std.specs.Prelude.{Err};
ghost use Rattle.snap_action.specs.Gives.{Gives, as_is};
ghost use Rattle.snap_action.specs.Names.{IsKnown};
ghost use Rattle.snap_graph.specs.declared.value.Value.TheVariants.{Text};
ghost use Rattle.snap_object.specs.Names.{StaysKnown};
ghost use Rattle.snap_object.specs.Parts.{outside, unspelled};

use crate::errors::type_error;
use crate::names::named_key;
use snap_action::{Abrupt, Name};
use snap_base::Stop;
use snap_graph::Value;
use snap_store::Store;
use std::alloc::Global;

/// A key is used, and what follows is not in this profile.
pub(crate) fn outside<S: Store>(store: &mut S, name: &mut Name) -> Abrupt<S::Held>
    requires { IsKnown (S.key_of store.old) name.old }
    ensures gives { Gives {R = Unit {0}} S.Store store.old store.new as_is (Err result) (outside (Text name.old.text)) }
    ensures kept { StaysKnown (S.key_of store.new) name.old name.new }
{
    match named_key(store, name) {
        Ok(_) => Abrupt::Stopped(Stop::NotInProfile),
        Err(fault) => fault,
    }
}

/// An access by a key that has no text in this profile.
pub(crate) fn unspelled<S: Store>(alloc: Global, store: &mut S, base: &Value) -> Abrupt<S::Held>
    ensures { Gives {R = Unit {0}} S.Store store.old store.new as_is (Err result) (unspelled base.now) }
{
    match base {
        Value::Undefined | Value::Null => type_error(alloc, store, b"no properties"),
        _ => Abrupt::Stopped(Stop::NotInProfile),
    }
}
