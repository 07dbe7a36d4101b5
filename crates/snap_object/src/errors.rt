//! The errors that access throws.

ghost use Rattle.std.specs.Prelude.{Err};
ghost use Rattle.snap_action.specs.Gives.{Gives, as_is};
ghost use Rattle.spec_values.specs.Access.{type_error};

use snap_action::{Abrupt, ErrorKind, throw_error};
use snap_store::Store;
use std::alloc::Global;

/// A TypeError with a message, which is thrown, or why it can't be made.
pub(crate) fn type_error<S: Store>(alloc: Global, store: &mut S, message: &[u8]) -> Abrupt<S::Held>
    ensures { Gives {R = Unit {0}} S.Store store.old store.new as_is (Err result) (type_error message.now) }
{
    throw_error(alloc, store, ErrorKind::TypeError, message)
}
